ghost use Rattle.std.specs.Prelude.{◌≡◌, length, slice_get, IsTrue};
ghost use Rattle.std.specs.Str.{chars, IsAscii};

use pt_base::{Dup, Memory, Text};
use std::alloc::Global;
use std::marker::Model;

/// A text object, which knows how many characters it has.
#[derive(Debug, Drop)]
pub struct Str {
    text: Text,
    count: usize,
    is_ascii: bool,
}

impl Model for Str {
    ghost use Rattle.std.specs.Prelude.{◌≡◌, List, ℕ, length, IsTrue};
    ghost use Rattle.std.specs.Str.{chars, IsAscii};

    ghost Value = { List ℕ };

    ghost view = { λ s. s.text };

    ghost invariant = { λ s. (s.count ≡ length (chars s.text)) × (IsTrue s.is_ascii → IsAscii s.text) };
}

/// The length in characters.
fn char_count(text: &str) -> usize
    ensures { result ≡ length (chars text.now) }
{
    text.chars().count()
}

/// Whether each character is one of ASCII.
fn is_ascii(text: &str) -> bool
    ensures { IsTrue result → IsAscii text.now }
{
    text.is_ascii()
}

/// The character at a place of an ASCII text.
fn byte_at(text: &str, place: usize) -> Option<char>
    requires { IsAscii text.now }
    ensures { result ≡ slice_get (chars text.now) place }
{
    match text.as_bytes().get(place) {
        Some(byte) => Some(*byte as char),
        None => None,
    }
}

/// The character at a place.
fn nth_char(text: &str, place: usize) -> Option<char>
    ensures { result ≡ slice_get (chars text.now) place }
{
    let mut left = place;
    for c in text.chars() {
        if left == 0 {
            return Some(c);
        }
        left -= 1;
    }
    None
}

impl Str {
    pub fn new(text: Text) -> Str
        ensures { result ≡ text }
    {
        let count = char_count(text.as_str());
        let is_ascii = is_ascii(text.as_str());
        Str {
            text,
            count,
            is_ascii,
        }
    }

    pub fn text(&self) -> &Text
        ensures { result.now ≡ self.now }
    {
        &self.text
    }

    /// The character at a place. In a text of ASCII alone it is reached at once.
    pub fn char_at(&self, place: usize) -> Option<char>
        ensures { result ≡ slice_get (chars self.now) place }
    {
        let text = self.text.as_str();
        if self.is_ascii {
            return byte_at(text, place);
        }
        nth_char(text, place)
    }

    /// The length in characters.
    pub fn len(&self) -> usize
        ensures { result ≡ length (chars self.now) }
    {
        self.count
    }
}

impl Dup for Str {
    fn dup(&self, alloc: Global) -> Result<Str, Memory> {
        let text = self.text.dup(alloc)?;
        Ok(Str {
            text,
            count: self.count,
            is_ascii: self.is_ascii,
        })
    }
}
