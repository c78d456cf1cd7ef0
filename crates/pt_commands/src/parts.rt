//! How a line of a command is cut.
ghost use Rattle.std.specs.Prelude.{◌≡◌, length};
ghost use Rattle.pt_literals.specs.Source.{is_blank};
ghost use Rattle.pt_strs.specs.Strip.{front, without_end, without_front};
ghost use Rattle.pt_commands.specs.Parts.{is_in, part_len, trimmed};

use pt_literals::is_blank_char;

/// What stands at the front of a text.
#[derive(Clone, Copy, Debug, PartialEq, Eq)]
pub enum Part {
    Blanks,
    /// Up to a blank.
    Word,
    /// Up to a comma.
    Item,
}

/// Whether a byte belongs to such a part.
fn is_in(part: Part, byte: u8) -> bool
    ensures { result ≡ is_in part byte }
{
    match part {
        Part::Blanks => is_blank_char(byte as char),
        Part::Word => !is_blank_char(byte as char),
        Part::Item => byte != b',',
    }
}

/// The length of a part at the front of a text.
fn part_len(part: Part, text: &[u8]) -> usize
    ensures { result ≡ part_len (is_in part) text.now }
{
    for (i, byte) in text.iter().enumerate() {
        if !is_in(part, *byte) {
            return i;
        }
    }
    text.len()
}

/// A part at the front of a text, and what stands behind it.
pub fn cut(part: Part, text: &str) -> (&str, &str)
    ensures front { result.0.now ≡ front (is_in part) text.now }
    ensures behind { result.1.now ≡ without_front (is_in part) text.now }
{
    let len = part_len(part, text.as_bytes());
    text.split_at(len)
}

/// Bytes without the blanks behind them.
fn kept(text: &[u8]) -> &[u8]
    ensures { result.now ≡ without_end is_blank text.now }
{
    let mut rest = text;
    while let [before @ .., last] = rest {
        if !is_blank_char(*last as char) {
            return rest;
        }
        rest = before;
    }
    rest
}

/// The length of a text without the blanks behind it.
fn kept_len(text: &[u8]) -> usize
    ensures { result ≡ length (without_end is_blank text.now) }
{
    kept(text).len()
}

/// A text without the blanks behind it, and these.
fn cut_end(text: &str) -> (&str, &str)
    ensures { result.0.now ≡ without_end is_blank text.now }
{
    let len = kept_len(text.as_bytes());
    text.split_at(len)
}

/// A text without the blanks behind it.
pub fn without_end(text: &str) -> &str
    ensures { result.now ≡ without_end is_blank text.now }
{
    let (text, _) = cut_end(text);
    text
}

/// A text without the blanks before it.
pub fn without_front(text: &str) -> &str
    ensures { result.now ≡ without_front is_blank text.now }
{
    let (_, rest) = cut(Part::Blanks, text);
    rest
}

/// A text without the blanks before and behind it.
pub fn trimmed(text: &str) -> &str
    ensures { result.now ≡ trimmed text.now }
{
    without_end(without_front(text))
}
