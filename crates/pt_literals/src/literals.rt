ghost use Rattle.std.specs.Prelude.{◌≡◌, MatchResult};
ghost use Rattle.pt_literals.specs.Literals.{IsBegun, faulty, begun as begun_by, delimited as delimited_at, opened as opened_by, prefixed as prefixed_by, is_quote as quote_char, is_either as either_char, kind_by as kind_of_letter, raw_kind_by as raw_kind_of_letter, kind_by_two as kind_of_letters, string_behind_two as string_from_two, string_behind_one as string_from_one, string_at as string_begun};

use crate::source::first_spot;
use crate::strings::behind_two;
use crate::{Begun, Delimiter, LexErr, Lexeme, Part, Spot, StringKind};
use pt_base::Line;

fn is_quote(c: char) -> bool
    ensures { result ≡ quote_char c }
{
    c == '"' || c == '\''
}

/// Whether it is a letter in either case.
fn is_either(c: char, lower: char, upper: char) -> bool
    ensures { result ≡ either_char c lower upper }
{
    c == lower || c == upper
}

fn kind_by(letter: char) -> Option<StringKind>
    ensures { result ≡ kind_of_letter letter }
{
    if is_either(letter, 'r', 'R') {
        return Some(StringKind::Raw);
    }
    if is_either(letter, 'u', 'U') {
        return Some(StringKind::Plain);
    }
    if is_either(letter, 'b', 'B') {
        return Some(StringKind::Bytes);
    }
    if is_either(letter, 'f', 'F') {
        return Some(StringKind::Format);
    }
    None
}

/// The kind of a letter beside an `r`.
fn raw_kind_by(letter: char) -> Option<StringKind>
    ensures { result ≡ raw_kind_of_letter letter }
{
    if is_either(letter, 'b', 'B') {
        return Some(StringKind::Bytes);
    }
    if is_either(letter, 'f', 'F') {
        return Some(StringKind::RawFormat);
    }
    None
}

fn kind_by_two(first: char, second: char) -> Option<StringKind>
    ensures { result ≡ kind_of_letters first second }
{
    if is_either(first, 'r', 'R') {
        return raw_kind_by(second);
    }
    if is_either(second, 'r', 'R') {
        return raw_kind_by(first);
    }
    None
}

/// A string from behind its opening quotes.
fn begun(is_formatted: bool, delimiter: Delimiter, rest: &[Spot]) -> Begun<'_>
    ensures { IsBegun result (begun_by is_formatted delimiter rest.now) }
{
    if is_formatted {
        return Begun::Known(Lexeme::Start(delimiter), rest);
    }
    Begun::Holds(Part::Whole(delimiter), rest)
}

/// A string from behind its first quote: three quotes delimit it, or else one.
fn delimited(is_formatted: bool, is_raw: bool, line: Line, quote: char, text: &[Spot]) -> Begun<'_>
    ensures { IsBegun result (delimited_at is_formatted is_raw line quote text.now) }
{
    let Some(rest) = behind_two(quote, text) else {
        let delimiter = Delimiter {
            quote,
            is_triple: false,
            is_raw,
            line,
        };
        return begun(is_formatted, delimiter, text);
    };
    let delimiter = Delimiter {
        quote,
        is_triple: true,
        is_raw,
        line,
    };
    begun(is_formatted, delimiter, rest)
}

/// A string of a kind, from behind its first quote.
fn opened(kind: StringKind, line: Line, quote: char, text: &[Spot]) -> Result<Begun<'_>, LexErr>
    ensures { MatchResult result (λ b. IsBegun b (opened_by kind line quote text.now)) (λ e. opened_by kind line quote text.now ≡ faulty e) }
{
    match kind {
        StringKind::Plain => Ok(delimited(false, false, line, quote, text)),
        StringKind::Raw => Ok(delimited(false, true, line, quote, text)),
        StringKind::Bytes => Err(LexErr::Excluded { line }),
        StringKind::Format => Ok(delimited(true, false, line, quote, text)),
        StringKind::RawFormat => Ok(delimited(true, true, line, quote, text)),
    }
}

fn prefixed(
    kind: Option<StringKind>,
    line: Line,
    quote: char,
    text: &[Spot],
) -> Result<Begun<'_>, LexErr>
    ensures { MatchResult result (λ b. IsBegun b (prefixed_by kind line quote text.now)) (λ e. prefixed_by kind line quote text.now ≡ faulty e) }
{
    match kind {
        Some(kind) => opened(kind, line, quote, text),
        None => Ok(Begun::Nothing),
    }
}

/// A string behind two letters of its prefix.
fn string_behind_two(first: Spot, second: Spot, text: &[Spot]) -> Result<Begun<'_>, LexErr>
    ensures { MatchResult result (λ b. IsBegun b (string_from_two first second text.now)) (λ e. string_from_two first second text.now ≡ faulty e) }
{
    let Some((spot, rest)) = first_spot(text) else {
        return Ok(Begun::Nothing);
    };
    if is_quote(spot.char) {
        return prefixed(
            kind_by_two(first.char, second.char),
            first.line,
            spot.char,
            rest,
        );
    }
    Ok(Begun::Nothing)
}

/// A string behind a letter of its prefix.
fn string_behind_one(first: Spot, text: &[Spot]) -> Result<Begun<'_>, LexErr>
    ensures { MatchResult result (λ b. IsBegun b (string_from_one first text.now)) (λ e. string_from_one first text.now ≡ faulty e) }
{
    let Some((spot, rest)) = first_spot(text) else {
        return Ok(Begun::Nothing);
    };
    if is_quote(spot.char) {
        return prefixed(kind_by(first.char), first.line, spot.char, rest);
    }
    string_behind_two(first, spot, rest)
}

/// The string that begins at the front (Language Reference 2.4.1).
pub(crate) fn string_at(text: &[Spot]) -> Result<Begun<'_>, LexErr>
    ensures { MatchResult result (λ b. IsBegun b (string_begun text.now)) (λ e. string_begun text.now ≡ faulty e) }
{
    let Some((spot, rest)) = first_spot(text) else {
        return Ok(Begun::Nothing);
    };
    if is_quote(spot.char) {
        return Ok(delimited(false, false, spot.line, spot.char, rest));
    }
    string_behind_one(spot, rest)
}
