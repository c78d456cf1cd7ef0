ghost use Rattle.std.specs.Prelude.{◌≡◌, ◌==◌, position};
ghost use Rattle.std.specs.List.{before_first, after_first};
ghost use Rattle.pt_cover.specs.Numbers.{number_of};
ghost use Rattle.pt_cover.specs.Pieces.{is_line, is_totals, kind_of, kind_named, line_of, name_of, behind_kind};

use crate::told::Told;

/// The place of the first of these bytes.
fn place_of(text: &[u8], byte: u8) -> Option<usize>
    ensures { result ≡ position (λ c. c == byte) text.now }
{
    text.iter().position(|c| *c == byte)
}

/// The part of a text before the first of these bytes, or all of it.
fn before(text: &[u8], end: u8) -> &[u8]
    ensures { result.now ≡ before_first (λ c. c == end) text.now }
{
    match place_of(text, end) {
        Some(at) => &text[..at],
        None => text,
    }
}

/// The part behind it, or nothing.
fn behind(text: &[u8], end: u8) -> &[u8]
    ensures { result.now ≡ after_first (λ c. c == end) text.now }
{
    match place_of(text, end) {
        Some(at) => &text[at + 1..],
        None => &[],
    }
}

/// What stands behind the kind of an event.
fn rest(piece: &[u8]) -> &[u8]
    ensures { result.now ≡ behind_kind piece.now }
{
    behind(before(piece, b'\n'), b' ')
}

fn kind_named(word: &[u8]) -> Told
    ensures { result ≡ kind_named word.now }
{
    if word == b"call".as_slice() {
        Told::Call
    } else if word == b"line".as_slice() {
        Told::Line
    } else if word == b"return".as_slice() {
        Told::Return
    } else {
        Told::Other
    }
}

/// What a piece tells.
pub fn kind(piece: &[u8]) -> Told
    ensures { result ≡ kind_of piece.now }
{
    kind_named(before(before(piece, b'\n'), b' '))
}

/// Whether a piece tells that a line begins.
pub fn begins_line(piece: &[u8]) -> bool
    ensures { result ≡ is_line (kind_of piece.now) }
{
    matches!(kind(piece), Told::Line)
}

/// The number that decimal digits write, of at most 32 bits.
fn number_in(text: &str) -> Option<u32>
    ensures { result ≡ number_of text.now }
{
    if text.starts_with('+') {
        return None;
    }
    text.parse::<u32>().ok()
}

fn number(word: &[u8]) -> Option<u32>
    ensures { result ≡ number_of word.now }
{
    match std::str::from_utf8(word) {
        Ok(text) => number_in(text),
        Err(_) => None,
    }
}

/// The line of an event.
pub fn line(piece: &[u8]) -> Option<u32>
    ensures { result ≡ line_of piece.now }
{
    number(before(rest(piece), b' '))
}

/// The name of the block of an event.
pub fn name(piece: &[u8]) -> &[u8]
    ensures { result.now ≡ name_of piece.now }
{
    behind(rest(piece), b' ')
}

/// Whether a piece tells the totals of a run.
pub fn is_totals(piece: &[u8]) -> bool
    ensures { result ≡ is_totals piece.now }
{
    piece.starts_with(b"acts ")
}
