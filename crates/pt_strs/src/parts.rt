ghost use Rattle.std.specs.Prelude.{◌<◌, length};
ghost use Rattle.std.specs.Option.{option_map};
ghost use Rattle.std.specs.Str.{chars};
ghost use Rattle.pt_strs.specs.Answer.{all_within, AnswersAll};
ghost use Rattle.pt_strs.specs.Cut.{all_pieces};
ghost use Rattle.pt_strs.specs.Words.{split_by, words};

use crate::class::Class;
use crate::length::{bounded, char_count};
use crate::{Scan, StrErr};
use pt_base::{Seq, Text};
use std::alloc::Global;

/// The pieces of a text between the places of a separator.
fn pieces(alloc: Global, text: &str, sep: &str) -> Result<Seq<Text>, StrErr>
    requires { 0 < length (chars sep.now) }
    ensures { AnswersAll result (all_within (all_pieces (chars sep.now) (chars text.now))) }
{
    let mut pieces = Seq::new(alloc);
    let mut scan = Scan::new(text);
    while let Some(front) = scan.before(sep) {
        let piece = bounded(alloc, front)?;
        pieces.push(piece)?;
    }
    let last = bounded(alloc, scan.as_str())?;
    pieces.push(last)?;
    Ok(pieces)
}

/// The words of a text, between blanks.
fn words(alloc: Global, text: &str) -> Result<Seq<Text>, StrErr>
    ensures { AnswersAll result (all_within (words (chars text.now))) }
{
    let mut words = Seq::new(alloc);
    let mut rest = Scan::new(text).without_front(&Class::Blank);
    while !rest.is_empty() {
        let behind = rest.without_front(&Class::Visible);
        let word = bounded(alloc, rest.until(&behind))?;
        words.push(word)?;
        rest = behind.without_front(&Class::Blank);
    }
    Ok(words)
}

/// The parts of a text at each place of a separator, or at its blanks where none is given
/// (Library Reference, `str.split`). Empty for an empty separator, Length where a part has more
/// than 16,777,216 characters.
pub fn split(alloc: Global, text: &Text, sep: Option<&Text>) -> Result<Seq<Text>, StrErr>
    ensures { AnswersAll result
        (split_by (option_map (λ s. chars s.now) sep.entry) (chars text.now)) }
{
    match sep {
        None => words(alloc, text.as_str()),
        Some(sep) if char_count(sep.as_str()) == 0 => Err(StrErr::Empty),
        Some(sep) => pieces(alloc, text.as_str(), sep.as_str()),
    }
}
