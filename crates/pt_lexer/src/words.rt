ghost use Rattle.std.specs.Prelude.{◌≡◌, ℕ, ◌+◌, ◌<◌, ◌≤◌, ◌↔◌, ◌&&◌, [], ◌∷◌, List, length, map, take, drop, true, false, nat_le, encode_utf8_all, string_bytes, IsTrue, IfOk, MatchOption, MatchResult};
ghost use Rattle.pt_literals.specs.declared.source.TextEnd.{TextEnd as End};
ghost use Rattle.pt_base.specs.Failures.{IfRefused};
ghost use Rattle.pt_lexer.specs.Progress.{IsReading, BeginsSpoilt};
ghost use Rattle.std.specs.List.{prefix_len};
ghost use Rattle.pt_literals.specs.Source.{chars_of};
ghost use Rattle.pt_literals.specs.Source.{starts_name, continues_name};
ghost use Rattle.pt_lexer.specs.Words.{is_listed, is_operator, is_keyword as keyword_chars, all_ascii, is_identifier, Spells, kind_of_part, NoneSpelt, Longest, LongestFront, has_operator as operator_at};

use crate::parts::string;
use crate::{Begun, LexErr, Lexeme, Mode, OPERATORS, Part, Reading, Spot, TokenKind};
use pt_base::{Failure, Memory, Text};
use pt_literals::{begins_name, first_spot, goes_on_name_char, literal};
use pt_tables::keywords;
use std::alloc::Global;
use unicode_normalization::to_nfkc;

/// How many characters at the front may stand in an identifier.
fn run_len(text: &[Spot]) -> usize
    ensures value { result ≡ prefix_len (λ spot. continues_name spot.char) text.now }
    ensures within { result ≤ length text.now }
{
    text.iter()
        .take_while(|spot| goes_on_name_char(spot.char))
        .count()
}

/// How many characters the identifier at the front has: 0 where none begins there.
fn identifier_len(text: &[Spot]) -> usize
    ensures { LongestFront is_identifier (chars_of text.now) result }
{
    let Some((first, others)) = first_spot(text) else {
        return 0;
    };
    if !begins_name(first.char) {
        return 0;
    }
    1 + run_len(others)
}

/// Whether the characters are those of the spelling.
fn spells(spelling: &str, front: &[Spot]) -> bool
    ensures { IsTrue result ↔ (spelling.now ≡ chars_of front.now) }
{
    let bytes = spelling.as_bytes();
    if bytes.len() != front.len() {
        return false;
    }
    for (i, spot) in front.iter().enumerate() {
        if char::from(bytes[i]) != spot.char {
            return false;
        }
    }
    true
}

/// The spelling in the list that the characters have.
fn listed(list: &[&'static str], front: &[Spot]) -> Option<&'static str>
    ensures { MatchOption result
        (is_listed (map (λ k. k.now) list.now) (chars_of front.now) ≡ false)
        (λ found. (found.now ≡ chars_of front.now) × (is_listed (map (λ k. k.now) list.now) (chars_of front.now) ≡ true)) }
{
    for spelling in list {
        if spells(spelling, front) {
            return Some(spelling);
        }
    }
    None
}

/// The operators of so many characters.
fn operators_of(count: usize) -> &'static [&'static str]
    ensures { (x : List ℕ) → length x ≡ count → is_listed (map (λ k. k.now) result.now) x ≡ is_operator x }
{
    if count == 3 {
        return &OPERATORS[..5];
    }
    if count == 2 {
        return &OPERATORS[5..24];
    }
    if count == 1 {
        return &OPERATORS[24..];
    }
    &[]
}

/// The operator that the characters are.
fn operator_of(front: &[Spot]) -> Option<&'static str>
    ensures { MatchOption result
        (is_operator (chars_of front.now) ≡ false)
        (λ found. (found.now ≡ chars_of front.now) × (is_operator (chars_of front.now) ≡ true)) }
{
    listed(operators_of(front.len()), front)
}

/// Whether the characters are an operator.
fn operates(front: &[Spot]) -> bool
    ensures { result ≡ is_operator (chars_of front.now) }
{
    operator_of(front).is_some()
}

/// Whether so many characters at the front are an operator.
fn has_operator(text: &[Spot], n: usize) -> bool
    ensures { result ≡ operator_at (chars_of text.now) n }
{
    n <= text.len() && operates(&text[..n])
}

/// How many characters the longest operator at the front has: 0 where none stands there.
fn operator_len(text: &[Spot]) -> usize
    ensures { LongestFront is_operator (chars_of text.now) result }
{
    if has_operator(text, 3) {
        3
    } else if has_operator(text, 2) {
        2
    } else if has_operator(text, 1) {
        1
    } else {
        0
    }
}

/// The characters as a text.
fn written(alloc: Global, front: &[Spot]) -> Result<String, Memory>
    ensures { IfOk result (λ text. string_bytes text ≡ encode_utf8_all (chars_of front.now)) }
{
    let mut text = String::new(alloc);
    for spot in front {
        text.push(spot.char)?;
    }
    Ok(text)
}

/// Whether all of the characters are ASCII.
fn are_ascii(front: &[Spot]) -> bool
    ensures { result ≡ all_ascii front.now }
{
    front.iter().all(|spot| spot.char.is_ascii())
}

/// Whether the text is a keyword (Language Reference 2.3.1).
fn is_keyword_text(text: &str) -> bool
    ensures { result ≡ keyword_chars text.now }
{
    keywords().get(text).is_some()
}

/// Whether the characters, which have this text, are a keyword.
fn is_keyword(front: &[Spot], text: &str) -> bool
    requires { text.now ≡ encode_utf8_all (chars_of front.now) }
    ensures { result ≡ keyword_chars (chars_of front.now) }
{
    if are_ascii(front) {
        return is_keyword_text(text);
    }
    false
}

/// The name or the keyword that is spelled by these characters.
#[tactic(auto, unfolding(crate::specs::Words::in_nfkc))]
fn name(alloc: Global, front: &[Spot]) -> Result<TokenKind, Memory>
    requires { is_identifier (chars_of front.now) ≡ true }
    ensures { IfOk result (λ word. Spells word (chars_of front.now)) }
{
    let text = written(alloc, front)?;
    if is_keyword(front, text.as_str()) {
        return Ok(TokenKind::Sign(Text::from_str(alloc, text.as_str())?));
    }
    let text = to_nfkc(alloc, text.as_str())?;
    Ok(TokenKind::Name(Text::from_str(alloc, text.as_str())?))
}

/// The operator that is spelled by these characters.
fn operator(alloc: Global, front: &[Spot]) -> Result<Option<TokenKind>, Memory>
    ensures { IfOk result (λ found. MatchOption found (is_operator (chars_of front.now) ≡ false) (λ word. Spells word (chars_of front.now))) }
{
    let Some(spelling) = operator_of(front) else {
        return Ok(None);
    };
    Ok(Some(TokenKind::Sign(Text::from_str(alloc, spelling)?)))
}

/// The longest name, keyword or operator at the front, and the text behind it.
pub(crate) fn plain_word(
    alloc: Global,
    text: &[Spot],
) -> Result<Option<(TokenKind, &[Spot])>, Memory>
    ensures { IfOk result (λ found. MatchOption found (NoneSpelt text.now) (λ x. Longest text.now x.0 x.1.now)) }
{
    let n = identifier_len(text);
    if n > 0 {
        let (front, rest) = text.split_at(n);
        let found = name(alloc, front)?;
        return Ok(Some((found, rest)));
    }
    let (front, rest) = text.split_at(operator_len(text));
    let Some(found) = operator(alloc, front)? else {
        return Ok(None);
    };
    Ok(Some((found, rest)))
}

/// The token of a part of a string.
fn part_word(part: Part, value: Text) -> TokenKind
    ensures { result ≡ kind_of_part part value }
{
    match part {
        Part::Whole(_) => TokenKind::Str(value),
        Part::Text(_) => TokenKind::FText(value),
        Part::Spec(_) => TokenKind::FText(value),
    }
}

/// The word at the front of a text that is read in a mode, and the text behind it (Language
/// Reference 2.1).
pub(crate) fn word(alloc: Global, mode: Mode, text: &[Spot]) -> Result<Reading<'_>, Failure<LexErr>>
    ensures { (end : End) → MatchResult result (IsReading end mode text.now) (IfRefused (BeginsSpoilt end mode text.now)) }
{
    match literal(alloc, mode, text)? {
        Begun::Known(found, rest) => Ok(Reading::Found(found, rest)),
        Begun::Holds(part, inner) => {
            let Some((value, rest)) = string(alloc, part, inner)? else {
                return Ok(Reading::Broken(part));
            };
            Ok(Reading::Found(Lexeme::Word(part_word(part, value)), rest))
        }
        Begun::Nothing => {
            let Some((found, rest)) = plain_word(alloc, text)? else {
                return Ok(Reading::NoneFound);
            };
            Ok(Reading::Found(Lexeme::Word(found), rest))
        }
    }
}
