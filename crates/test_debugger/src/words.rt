//! The words of rows.
use crate::no_row::NoRow;
use pt_base::{Line, Seq, Text};
use std::alloc::Global;
use std::str;
use test_notation::text_of;

pub fn number(word: &str) -> Result<u32, NoRow> {
    word.parse::<u32>().map_err(|_| NoRow)
}

/// A text, with escapes.
pub fn text(alloc: Global, word: &str) -> Result<Text, NoRow> {
    let bytes = text_of(alloc, word)?;
    let text = str::from_utf8(bytes.as_slice()).map_err(|_| NoRow)?;
    Ok(Text::from_str(alloc, text)?)
}

/// The lines of a text.
pub fn text_lines(alloc: Global, word: &str) -> Result<Seq<Seq<u8>>, NoRow> {
    let text = text(alloc, word)?;
    let mut lines = Seq::new(alloc);
    for line in text.as_str().split("\n") {
        lines.push(Seq::from_slice(alloc, line.as_bytes())?)?;
    }
    Ok(lines)
}

/// Numbers of lines, between commas.
pub fn lines(alloc: Global, word: &str) -> Result<Seq<Line>, NoRow> {
    let mut lines = Seq::new(alloc);
    for line in word.split(",") {
        lines.push(Line(number(line)?))?;
    }
    Ok(lines)
}

/// Names, with escapes and a comma behind each.
pub fn name_list(alloc: Global, word: &str) -> Result<Seq<Text>, NoRow> {
    let mut names = Seq::new(alloc);
    for name in word.split_terminator(",") {
        names.push(text(alloc, name)?)?;
    }
    Ok(names)
}
