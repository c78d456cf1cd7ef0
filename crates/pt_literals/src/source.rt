ghost use Rattle.std.specs.Prelude.{◌≡◌, ◌==◌, ◌+◌, ◌-◌, ◌<◌, ◌≤◌, ◌^◌, [], ◌∷◌, length, take, chars, IfOk, MatchOption};
ghost use Rattle.std.specs.Str.{IsUtf8};
ghost use Rattle.std.specs.Str.Lossy.{utf8_valid_len};
ghost use Rattle.pt_literals.specs.Source.{line_at, placed, end_behind, read_chars, end_of, behind_mark, is_blank, ends_line, starts_name, continues_name};

use pt_base::{Line, Memory, Seq};
use std::alloc::Global;

/// A character of a text, with the place of its first byte and its physical line.
#[derive(Clone, Copy, Debug, PartialEq, Eq)]
pub struct Spot {
    pub at: u32,
    pub line: Line,
    pub char: char,
}

/// Where the characters of a text end, and whether that is all of it: behind bytes that are no
/// UTF-8 nothing is read.
#[derive(Clone, Copy, Debug, PartialEq, Eq)]
pub struct TextEnd {
    pub at: u32,
    pub line: Line,
    pub is_whole: bool,
}

/// The character at the front, and the text behind it.
pub fn first_spot(text: &[Spot]) -> Option<(Spot, &[Spot])>
    ensures { MatchOption result (text.now ≡ []) (λ x. text.now ≡ x.0 ∷ x.1.now) }
{
    let (spot, rest) = text.split_first()?;
    Some((*spot, rest))
}

/// A text as its characters.
#[derive(Drop)]
pub struct Source {
    pub spots: Seq<Spot>,
    pub end: TextEnd,
}

/// Bytes as far as they are UTF-8, and whether that is all of them (Language Reference 2.1.4).
fn as_text(bytes: &[u8]) -> (&str, bool)
    ensures text { result.0.now ≡ take (utf8_valid_len bytes.now) bytes.now }
    ensures whole { result.1 ≡ (utf8_valid_len bytes.now == length bytes.now) }
{
    match str::from_utf8(bytes) {
        Ok(text) => (text, true),
        Err(error) => (valid_text(bytes, error.valid_up_to()), false),
    }
}

/// The bytes in front of a place, which are UTF-8.
fn valid_text(bytes: &[u8], n: usize) -> &str
    requires within { n ≤ length bytes.now }
    requires utf8 { IsUtf8 (take n bytes.now) }
    ensures { result.now ≡ take n bytes.now }
{
    match str::from_utf8(&bytes[..n]) {
        Ok(text) => text,
        Err(_) => unreachable!(),
    }
}

/// The line of a character behind another.
fn line_behind(line: u32, before: char, c: char) -> u32
    requires { line < 2 ^ 32 - 1 }
    ensures { result ≡ line_at line before c }
{
    if before == '\n' || (before == '\r' && c != '\n') {
        return line + 1;
    }
    line
}

/// The characters of a text with their places.
fn place(alloc: Global, text: &str, is_whole: bool) -> Result<Source, Memory>
    requires { length text.now < 2 ^ 31 }
    ensures { IfOk result (λ s. (s.spots ≡ placed 0 1 0 (chars text.now)) × (s.end ≡ end_behind 0 1 0 (chars text.now) is_whole) × (length s.spots ≤ length text.now)) }
{
    let mut spots = Seq::new(alloc);
    let mut at = 0;
    let mut line = 1;
    let mut before = '\0';
    for c in text.chars() {
        line = line_behind(line, before, c);
        spots.push(Spot {
            at,
            line: Line(line),
            char: c,
        })?;
        at += c.len_utf8() as u32;
        before = c;
    }
    let line = Line(line_behind(line, before, '\0'));
    let end = TextEnd { at, line, is_whole };
    Ok(Source { spots, end })
}

/// The characters of bytes, as far as they are UTF-8.
pub fn read(alloc: Global, bytes: &[u8]) -> Result<Source, Memory>
    requires { length bytes.now < 2 ^ 31 }
    ensures { IfOk result (λ s. (s.spots ≡ placed 0 1 0 (read_chars bytes.now)) × (s.end ≡ end_of bytes.now) × (length s.spots ≤ length bytes.now)) }
{
    let (text, is_whole) = as_text(bytes);
    place(alloc, text, is_whole)
}

/// What stands behind a byte order mark (Language Reference 2.1.4).
pub fn behind_byte_order_mark(text: &[Spot]) -> &[Spot]
    ensures { result.now ≡ behind_mark text.now }
{
    match first_spot(text) {
        Some((spot, rest)) => {
            if spot.char == '\u{feff}' {
                return rest;
            }
            text
        }
        None => text,
    }
}

/// Whether a physical line ends with the character (Language Reference 2.1.2).
pub fn ends_line_char(c: char) -> bool
    ensures { result ≡ ends_line c }
{
    c == '\n' || c == '\r'
}

/// Whether the character is a blank between words (Language Reference 2.1.9).
pub fn is_blank_char(c: char) -> bool
    ensures { result ≡ is_blank c }
{
    c == ' ' || c == '\t' || c == '\x0c'
}

/// Whether an identifier may begin with the character (Language Reference 2.3).
#[tactic(auto, unfolding(crate::specs::Source::starts_name))]
pub fn begins_name(c: char) -> bool
    ensures { result ≡ starts_name c }
{
    unicode_ident::is_xid_start(c) || c == '_'
}

/// Whether an identifier may go on with the character (Language Reference 2.3).
#[tactic(auto, unfolding(crate::specs::Source::continues_name))]
pub fn goes_on_name_char(c: char) -> bool
    ensures { result ≡ continues_name c }
{
    unicode_ident::is_xid_continue(c)
}
