ghost use Rattle.std.specs.Prelude.{◌≡◌, ◌<◌, ◌≤◌, [], ◌∷◌, ◌++◌, length, Some, None, is_some, encode_utf8_all, string_bytes, MatchOption, MatchResult, OnOk};
ghost use Rattle.pt_literals.specs.Source.{behind_line_end as behind_end};
ghost use Rattle.pt_literals.specs.Numbers.{value_from};
ghost use Rattle.pt_literals.specs.Literals.{behind_quote as quote_at, behind_two as two_at, behind_three as three_at, closes as closes_at};
ghost use Rattle.pt_literals.specs.Strings.{one as one_char, two as two_chars, nothing as no_chars, only, listed, takes, fails, simple as simple_of, is_surrogate as surrogate, coded as coded_by, octal_len as octal_at, octal as octal_by, all_hex as hex_alone, are_hex as hex_at, hex as hex_by, by_letter as letter_by, escaped as escaped_by, escape as escape_by, raw_escape as raw_escape_by, line_end_in as line_end_by, piece_in as piece_by, piece_of_text as text_piece_by, piece as part_piece_by, stops_at as stopped_at, stops_text as text_stops, stops_spec as spec_stops, ends as ends_at};

use crate::fields::{is_brace, is_single};
use crate::numbers::{behind_one, is_digit, value};
use crate::source::{ends_line_char, first_spot};
use crate::{LexErr, Part, Spot};
use pt_base::{Line, Memory};

/// What the prefix of a string says (Language Reference 2.4.1).
#[derive(Clone, Copy, Debug, PartialEq, Eq)]
pub enum StringKind {
    Plain,
    Raw,
    Bytes,
    Format,
    RawFormat,
}

/// What ends a string, how its backslashes are read, and the line on which it begins.
#[derive(Clone, Copy, Debug, PartialEq, Eq)]
pub struct Delimiter {
    pub quote: char,
    pub is_triple: bool,
    pub is_raw: bool,
    pub line: Line,
}

/// At most two characters.
#[derive(Clone, Copy, Debug, PartialEq, Eq)]
pub struct Chars {
    pub first: Option<char>,
    pub second: Option<char>,
}

fn one(c: char) -> Chars
    ensures { result ≡ one_char c }
{
    Chars {
        first: Some(c),
        second: None,
    }
}

fn two(first: char, second: char) -> Chars
    ensures { result ≡ two_chars first second }
{
    Chars {
        first: Some(first),
        second: Some(second),
    }
}

fn no_chars() -> Chars
    ensures { result ≡ no_chars }
{
    Chars {
        first: None,
        second: None,
    }
}

/// What stands behind a quote.
pub(crate) fn behind_quote(quote: char, text: &[Spot]) -> Option<&[Spot]>
    ensures { MatchOption result (quote_at quote text.now ≡ None) (λ rest. quote_at quote text.now ≡ Some rest.now) }
{
    let (spot, rest) = first_spot(text)?;
    if spot.char == quote {
        return Some(rest);
    }
    None
}

/// What stands behind two quotes.
pub(crate) fn behind_two(quote: char, text: &[Spot]) -> Option<&[Spot]>
    ensures { MatchOption result (two_at quote text.now ≡ None) (λ rest. two_at quote text.now ≡ Some rest.now) }
{
    behind_quote(quote, behind_quote(quote, text)?)
}

fn behind_three(quote: char, text: &[Spot]) -> Option<&[Spot]>
    ensures { MatchOption result (three_at quote text.now ≡ None) (λ rest. three_at quote text.now ≡ Some rest.now) }
{
    behind_quote(quote, behind_two(quote, text)?)
}

/// What stands behind the closing quotes, where they stand here.
pub(crate) fn behind_closing(delimiter: Delimiter, text: &[Spot]) -> Option<&[Spot]>
    ensures { MatchOption result (closes_at delimiter text.now ≡ None) (λ rest. closes_at delimiter text.now ≡ Some rest.now) }
{
    if delimiter.is_triple {
        return behind_three(delimiter.quote, text);
    }
    behind_quote(delimiter.quote, text)
}

/// What stands behind the end of a physical line: LF, CR LF or CR (Language Reference 2.1.2).
fn behind_line_end(text: &[Spot]) -> &[Spot]
    ensures { result.now ≡ behind_end text.now }
{
    let Some((spot, rest)) = first_spot(text) else {
        return text;
    };
    if spot.char != '\r' {
        return rest;
    }
    match first_spot(rest) {
        Some((next, behind)) => {
            if next.char == '\n' {
                return behind;
            }
            rest
        }
        None => rest,
    }
}

/// The character of an escape of one letter or sign.
fn simple(c: char) -> Option<char>
    ensures { result ≡ simple_of c }
{
    match c {
        '\\' => Some('\\'),
        '\'' => Some('\''),
        '"' => Some('"'),
        'a' => Some('\x07'),
        'b' => Some('\x08'),
        'f' => Some('\x0c'),
        'n' => Some('\n'),
        'r' => Some('\r'),
        't' => Some('\t'),
        'v' => Some('\x0b'),
        _ => None,
    }
}

/// The character whose code these digits write, by the escape whose backslash stands at a spot.
fn coded<'a>(
    spot: Spot,
    radix: u32,
    digits: &[Spot],
    rest: &'a [Spot],
) -> Result<(Chars, &'a [Spot]), LexErr>
    requires { 0 < radix }
    ensures { MatchResult result
        (λ r. coded_by spot (value_from radix 0 digits.now) rest.now ≡ takes r.0 r.1.now)
        (λ e. coded_by spot (value_from radix 0 digits.now) rest.now ≡ fails e) }
{
    let Some(code) = value(radix, digits) else {
        return Err(LexErr::BadChar { at: spot.at });
    };
    if code >= 0x110000 {
        return Err(LexErr::BadChar { at: spot.at });
    }
    match char::from_u32(code as u32) {
        Some(c) => Ok((one(c), rest)),
        None => Err(LexErr::Excluded { line: spot.line }),
    }
}

/// How many octal digits stand at the front, up to three.
fn octal_len(text: &[Spot]) -> usize
    ensures value { result ≡ octal_at text.now }
    ensures within { result ≤ length text.now }
{
    text[..text.len().min(3)]
        .iter()
        .take_while(|spot| is_digit(spot.char, 8))
        .count()
}

fn octal(spot: Spot, text: &[Spot]) -> Result<(Chars, &[Spot]), LexErr>
    ensures { MatchResult result (λ r. octal_by spot text.now ≡ takes r.0 r.1.now) (λ e. octal_by spot text.now ≡ fails e) }
{
    let (digits, rest) = text.split_at(octal_len(text));
    coded(spot, 8, digits, rest)
}

fn all_hex(digits: &[Spot]) -> bool
    ensures { result ≡ hex_alone digits.now }
{
    digits.iter().all(|spot| is_digit(spot.char, 16))
}

/// Whether these are so many hexadecimal digits.
fn are_hex(count: usize, digits: &[Spot]) -> bool
    ensures { result ≡ hex_at count digits.now }
{
    digits.len() == count && all_hex(digits)
}

fn hex(spot: Spot, count: usize, text: &[Spot]) -> Result<(Chars, &[Spot]), LexErr>
    ensures { MatchResult result (λ r. hex_by spot count text.now ≡ takes r.0 r.1.now) (λ e. hex_by spot count text.now ≡ fails e) }
{
    let (digits, rest) = text.split_at(count.min(text.len()));
    if are_hex(count, digits) {
        return coded(spot, 16, digits, rest);
    }
    Err(LexErr::BadChar { at: spot.at })
}

/// An escape by a letter and digits; one that isn't known keeps its backslash.
fn by_letter<'a>(
    spot: Spot,
    letter: Spot,
    text: &'a [Spot],
    rest: &'a [Spot],
) -> Result<(Chars, &'a [Spot]), LexErr>
    requires { text.now ≡ letter ∷ rest.now }
    ensures { MatchResult result (λ r. letter_by spot letter rest.now ≡ takes r.0 r.1.now) (λ e. letter_by spot letter rest.now ≡ fails e) }
{
    match letter.char {
        'x' => hex(spot, 2, rest),
        'u' => hex(spot, 4, rest),
        'U' => hex(spot, 8, rest),
        'N' => Err(LexErr::Excluded { line: spot.line }),
        _ => Ok((one('\\'), text)),
    }
}

/// What an escape stands for, from behind its backslash, and the text behind it.
fn escape(spot: Spot, text: &[Spot]) -> Result<(Chars, &[Spot]), LexErr>
    ensures { MatchResult result (λ r. escape_by spot text.now ≡ takes r.0 r.1.now) (λ e. escape_by spot text.now ≡ fails e) }
{
    let Some((letter, rest)) = first_spot(text) else {
        return Ok((one('\\'), text));
    };
    if ends_line_char(letter.char) {
        return Ok((no_chars(), behind_line_end(text)));
    }
    if let Some(c) = simple(letter.char) {
        return Ok((one(c), rest));
    }
    if is_digit(letter.char, 8) {
        return octal(spot, text);
    }
    by_letter(spot, letter, text, rest)
}

/// A backslash of a raw string with what stands behind it. A brace of an f-string stands for itself.
fn raw_escape(is_formatted: bool, text: &[Spot]) -> (Chars, &[Spot])
    ensures { raw_escape_by is_formatted text.now ≡ takes result.0 result.1.now }
{
    let Some((spot, rest)) = first_spot(text) else {
        return (one('\\'), text);
    };
    if ends_line_char(spot.char) {
        return (two('\\', '\n'), behind_line_end(text));
    }
    if is_formatted && is_brace(spot.char) {
        return (one('\\'), text);
    }
    (two('\\', spot.char), rest)
}

/// A line end in a string.
fn line_end_in(delimiter: Delimiter, text: &[Spot]) -> Result<(Chars, &[Spot]), LexErr>
    ensures { MatchResult result (λ r. line_end_by delimiter text.now ≡ takes r.0 r.1.now) (λ e. line_end_by delimiter text.now ≡ fails e) }
{
    if delimiter.is_triple {
        return Ok((one('\n'), behind_line_end(text)));
    }
    Err(LexErr::OpenString {
        line: delimiter.line,
    })
}

/// What a place in a string stands for, and the text behind it.
fn piece_in<'a>(
    is_formatted: bool,
    delimiter: Delimiter,
    spot: Spot,
    text: &'a [Spot],
    rest: &'a [Spot],
) -> Result<(Chars, &'a [Spot]), LexErr>
    requires { text.now ≡ spot ∷ rest.now }
    ensures { MatchResult result (λ r. piece_by is_formatted delimiter spot rest.now ≡ takes r.0 r.1.now) (λ e. piece_by is_formatted delimiter spot rest.now ≡ fails e) }
{
    if spot.char == '\\' {
        if delimiter.is_raw {
            return Ok(raw_escape(is_formatted, rest));
        }
        return escape(spot, rest);
    }
    if ends_line_char(spot.char) {
        return line_end_in(delimiter, text);
    }
    Ok((one(spot.char), rest))
}

/// The same in the literal text of an f-string, where two braces stand for one.
fn piece_of_text<'a>(
    delimiter: Delimiter,
    spot: Spot,
    text: &'a [Spot],
    rest: &'a [Spot],
) -> Result<(Chars, &'a [Spot]), LexErr>
    requires { text.now ≡ spot ∷ rest.now }
    ensures { MatchResult result (λ r. text_piece_by delimiter spot rest.now ≡ takes r.0 r.1.now) (λ e. text_piece_by delimiter spot rest.now ≡ fails e) }
{
    if is_brace(spot.char) {
        return Ok((one(spot.char), behind_one(rest)));
    }
    piece_in(true, delimiter, spot, text, rest)
}

/// What a place in a part of a string stands for, and the text behind it.
pub fn piece<'a>(
    part: Part,
    spot: Spot,
    text: &'a [Spot],
    rest: &'a [Spot],
) -> Result<(Chars, &'a [Spot]), LexErr>
    requires { text.now ≡ spot ∷ rest.now }
    ensures { MatchResult result (λ r. part_piece_by part spot rest.now ≡ takes r.0 r.1.now) (λ e. part_piece_by part spot rest.now ≡ fails e) }
{
    match part {
        Part::Whole(delimiter) => piece_in(false, delimiter, spot, text, rest),
        Part::Text(delimiter) => piece_of_text(delimiter, spot, text, rest),
        Part::Spec(delimiter) => piece_in(true, delimiter, spot, text, rest),
    }
}

fn stops_at(stops: bool, text: &[Spot]) -> Option<&[Spot]>
    ensures { MatchOption result (stopped_at stops text.now ≡ None) (λ rest. stopped_at stops text.now ≡ Some rest.now) }
{
    if stops {
        return Some(text);
    }
    None
}

fn closes(delimiter: Delimiter, text: &[Spot]) -> bool
    ensures { result ≡ is_some (closes_at delimiter text.now) }
{
    behind_closing(delimiter, text).is_some()
}

/// Whether the literal text of an f-string stops here.
fn stops_text(delimiter: Delimiter, spot: Spot, text: &[Spot], rest: &[Spot]) -> bool
    requires { text.now ≡ spot ∷ rest.now }
    ensures { result ≡ text_stops delimiter spot rest.now }
{
    closes(delimiter, text) || is_single(spot, rest)
}

/// Whether a format spec stops here.
fn stops_spec(delimiter: Delimiter, spot: Spot, text: &[Spot], rest: &[Spot]) -> bool
    requires { text.now ≡ spot ∷ rest.now }
    ensures { result ≡ spec_stops delimiter spot rest.now }
{
    closes(delimiter, text) || is_brace(spot.char)
}

/// What stands behind a part of a string that ends here.
pub fn behind_end<'a>(
    part: Part,
    spot: Spot,
    text: &'a [Spot],
    rest: &'a [Spot],
) -> Option<&'a [Spot]>
    requires { text.now ≡ spot ∷ rest.now }
    ensures { MatchOption result (ends_at part spot rest.now ≡ None) (λ behind. ends_at part spot rest.now ≡ Some behind.now) }
{
    match part {
        Part::Whole(delimiter) => behind_closing(delimiter, text),
        Part::Text(delimiter) => stops_at(stops_text(delimiter, spot, text, rest), text),
        Part::Spec(delimiter) => stops_at(stops_spec(delimiter, spot, text, rest), text),
    }
}

fn push_one(value: &mut String, c: Option<char>) -> Result<(), Memory>
    ensures { OnOk result (string_bytes value.new ≡ string_bytes value.old ++ encode_utf8_all (only c)) }
{
    if let Some(c) = c {
        value.push(c)?;
    }
    Ok(())
}

/// Puts characters behind a text.
pub fn push(value: &mut String, chars: Chars) -> Result<(), Memory>
    ensures { OnOk result (string_bytes value.new ≡ string_bytes value.old ++ encode_utf8_all (listed chars)) }
{
    push_one(value, chars.first)?;
    push_one(value, chars.second)
}
