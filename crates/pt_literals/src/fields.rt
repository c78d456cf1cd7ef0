ghost use Rattle.std.specs.Prelude.{◌≡◌, IfOk, MatchResult};
ghost use Rattle.pt_base.specs.Failures.{IfRefused};
ghost use Rattle.pt_literals.specs.Literals.{IsBegun, faulty, known, or_else, goes_on_name as name_goes_on, begins_line_end as line_end_begins, is_name_a as names_a, begins_by as begins_with, conversion as conversion_of, field_sign as field_sign_of, field_sign_at as field_sign_begun, is_brace as brace_char, is_single as single_brace, brace_in_text as text_brace, brace_in_spec as spec_brace, text_at as text_begun, spec_at as spec_begun, number_at as number_begun, string_at as string_begun, literal as literal_in, sign as sign_of};

use crate::literals::string_at;
use crate::numbers::number_at;
use crate::source::{ends_line_char, first_spot, goes_on_name_char, is_blank_char};
use crate::strings::behind_closing;
use crate::{Begun, Delimiter, LexErr, Lexeme, Mode, Part, Spot, TokenKind};
use pt_base::{Failure, Memory, Text};
use std::alloc::Global;

/// Whether a name goes on here.
fn goes_on_name(text: &[Spot]) -> bool
    ensures { result ≡ name_goes_on text.now }
{
    match first_spot(text) {
        Some((spot, _)) => goes_on_name_char(spot.char),
        None => false,
    }
}

/// Whether a line ends here.
fn begins_line_end(text: &[Spot]) -> bool
    ensures { result ≡ line_end_begins text.now }
{
    match first_spot(text) {
        Some((spot, _)) => ends_line_char(spot.char),
        None => false,
    }
}

/// Whether the name `a` stands here, maybe behind what may stand between words in brackets.
fn is_name_a(text: &[Spot]) -> bool
    ensures { result ≡ names_a text.now }
{
    let mut in_comment = false;
    let mut rest = text;
    while let Some((spot, behind)) = first_spot(rest) {
        if in_comment {
            in_comment = !ends_line_char(spot.char);
        } else if spot.char == '#' {
            in_comment = true;
        } else if spot.char == '\\' {
            if !begins_line_end(behind) {
                return false;
            }
        } else if !is_blank_char(spot.char) && !ends_line_char(spot.char) {
            return spot.char == 'a' && !goes_on_name(behind);
        }
        rest = behind;
    }
    false
}

fn begins_by(c: char, text: &[Spot]) -> bool
    ensures { result ≡ begins_with c text.now }
{
    match first_spot(text) {
        Some((spot, _)) => spot.char == c,
        None => false,
    }
}

fn sign<'a>(alloc: Global, spelling: &str, rest: &'a [Spot]) -> Result<Begun<'a>, Memory>
    ensures { IfOk result (λ b. IsBegun b (known (sign_of spelling.now) rest.now)) }
{
    let word = TokenKind::Sign(Text::from_str(alloc, spelling)?);
    Ok(Begun::Known(Lexeme::Word(word), rest))
}

/// The sign of a conversion.
fn conversion(alloc: Global, spot: Spot, rest: &[Spot]) -> Result<Begun<'_>, Failure<LexErr>>
    ensures { MatchResult result (λ b. IsBegun b (conversion_of spot rest.now)) (IfRefused (λ e. conversion_of spot rest.now ≡ faulty e)) }
{
    if is_name_a(rest) {
        return Err(Failure::Refused(LexErr::Excluded { line: spot.line }));
    }
    Ok(sign(alloc, "!", rest)?)
}

/// A sign that stands for itself in a field (Language Reference 2.4.3).
fn field_sign(alloc: Global, spot: Spot, rest: &[Spot]) -> Result<Begun<'_>, Failure<LexErr>>
    ensures { MatchResult result (λ b. IsBegun b (field_sign_of spot rest.now)) (IfRefused (λ e. field_sign_of spot rest.now ≡ faulty e)) }
{
    if spot.char == ':' {
        return Ok(sign(alloc, ":", rest)?);
    }
    if spot.char == '!' && !begins_by('=', rest) {
        return conversion(alloc, spot, rest);
    }
    if spot.char == '=' && !begins_by('=', rest) {
        return Err(Failure::Refused(LexErr::Excluded { line: spot.line }));
    }
    Ok(Begun::Nothing)
}

fn field_sign_at(alloc: Global, text: &[Spot]) -> Result<Begun<'_>, Failure<LexErr>>
    ensures { MatchResult result (λ b. IsBegun b (field_sign_begun text.now)) (IfRefused (λ e. field_sign_begun text.now ≡ faulty e)) }
{
    match first_spot(text) {
        Some((spot, rest)) => field_sign(alloc, spot, rest),
        None => Ok(Begun::Nothing),
    }
}

pub(crate) fn is_brace(c: char) -> bool
    ensures { result ≡ brace_char c }
{
    c == '{' || c == '}'
}

/// Whether a brace is not written twice.
pub(crate) fn is_single(spot: Spot, rest: &[Spot]) -> bool
    ensures { result ≡ single_brace spot rest.now }
{
    is_brace(spot.char) && !begins_by(spot.char, rest)
}

fn brace_in_text(alloc: Global, spot: Spot, rest: &[Spot]) -> Result<Begun<'_>, Failure<LexErr>>
    ensures { MatchResult result (λ b. IsBegun b (text_brace spot rest.now)) (IfRefused (λ e. text_brace spot rest.now ≡ faulty e)) }
{
    if spot.char == '{' {
        return Ok(sign(alloc, "{", rest)?);
    }
    Err(Failure::Refused(LexErr::OpenBracket { line: spot.line }))
}

fn brace_in_spec(alloc: Global, spot: Spot, rest: &[Spot]) -> Result<Begun<'_>, Memory>
    ensures { IfOk result (λ b. IsBegun b (spec_brace spot rest.now)) }
{
    if spot.char == '{' {
        return sign(alloc, "{", rest);
    }
    sign(alloc, "}", rest)
}

/// What begins in the literal text of an f-string.
fn text_at(alloc: Global, string: Delimiter, text: &[Spot]) -> Result<Begun<'_>, Failure<LexErr>>
    ensures { MatchResult result (λ b. IsBegun b (text_begun string text.now)) (IfRefused (λ e. text_begun string text.now ≡ faulty e)) }
{
    let Some((spot, rest)) = first_spot(text) else {
        return Ok(Begun::Holds(Part::Text(string), text));
    };
    if let Some(behind) = behind_closing(string, text) {
        return Ok(Begun::Known(Lexeme::Word(TokenKind::FEnd), behind));
    }
    if is_single(spot, rest) {
        return brace_in_text(alloc, spot, rest);
    }
    Ok(Begun::Holds(Part::Text(string), text))
}

/// What begins in a format spec.
fn spec_at(alloc: Global, string: Delimiter, text: &[Spot]) -> Result<Begun<'_>, Memory>
    ensures { IfOk result (λ b. IsBegun b (spec_begun string text.now)) }
{
    let Some((spot, rest)) = first_spot(text) else {
        return Ok(Begun::Holds(Part::Spec(string), text));
    };
    if let Some(behind) = behind_closing(string, text) {
        return Ok(Begun::Known(Lexeme::Word(TokenKind::FEnd), behind));
    }
    if is_brace(spot.char) {
        return brace_in_spec(alloc, spot, rest);
    }
    Ok(Begun::Holds(Part::Spec(string), text))
}

/// A number or a string (Language Reference 2.4).
fn number_or_string(text: &[Spot]) -> Result<Begun<'_>, LexErr>
    ensures { MatchResult result
        (λ b. IsBegun b (or_else (number_begun text.now) (string_begun text.now)))
        (λ e. or_else (number_begun text.now) (string_begun text.now) ≡ faulty e) }
{
    match number_at(text)? {
        Begun::Nothing => string_at(text),
        Begun::Known(word, rest) => Ok(Begun::Known(word, rest)),
        Begun::Holds(part, rest) => Ok(Begun::Holds(part, rest)),
    }
}

fn in_field(alloc: Global, text: &[Spot]) -> Result<Begun<'_>, Failure<LexErr>>
    ensures { MatchResult result
        (λ b. IsBegun b (or_else (field_sign_begun text.now) (or_else (number_begun text.now) (string_begun text.now))))
        (IfRefused (λ e. or_else (field_sign_begun text.now) (or_else (number_begun text.now) (string_begun text.now)) ≡ faulty e)) }
{
    match field_sign_at(alloc, text)? {
        Begun::Nothing => number_or_string(text).map_err(Failure::Refused),
        Begun::Known(word, rest) => Ok(Begun::Known(word, rest)),
        Begun::Holds(part, rest) => Ok(Begun::Holds(part, rest)),
    }
}

/// What begins at the front of a text that is read in a mode, apart from names, keywords and
/// operators.
pub fn literal(alloc: Global, mode: Mode, text: &[Spot]) -> Result<Begun<'_>, Failure<LexErr>>
    ensures { MatchResult result (λ b. IsBegun b (literal_in mode text.now)) (IfRefused (λ e. literal_in mode text.now ≡ faulty e)) }
{
    match mode {
        Mode::Words => number_or_string(text).map_err(Failure::Refused),
        Mode::Text(string) => text_at(alloc, string, text),
        Mode::Field(_) => in_field(alloc, text),
        Mode::Spec(field) => Ok(spec_at(alloc, field.string, text)?),
    }
}
