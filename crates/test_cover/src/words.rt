//! The words of rows.
use crate::no_row::NoRow;
use pt_base::{Line, Seq, Text};
use std::alloc::Global;
use std::str;
use test_notation::text_of;

/// Numbers with a comma behind each.
pub fn numbers(alloc: Global, word: &str) -> Result<Seq<u64>, NoRow> {
    let mut numbers = Seq::new(alloc);
    for number in word.split_terminator(",") {
        numbers.push(number.parse::<u64>().map_err(|_| NoRow)?)?;
    }
    Ok(numbers)
}

/// Lines with a comma behind each.
pub fn lines(alloc: Global, word: &str) -> Result<Seq<Line>, NoRow> {
    let mut lines = Seq::new(alloc);
    for number in word.split_terminator(",") {
        lines.push(Line(number.parse::<u32>().map_err(|_| NoRow)?))?;
    }
    Ok(lines)
}

/// Names with escapes, and a comma behind each.
pub fn names(alloc: Global, word: &str) -> Result<Seq<Text>, NoRow> {
    let mut names = Seq::new(alloc);
    for name in word.split_terminator(",") {
        let bytes = text_of(alloc, name)?;
        let text = str::from_utf8(bytes.as_slice()).map_err(|_| NoRow)?;
        names.push(Text::from_str(alloc, text)?)?;
    }
    Ok(names)
}

/// A piece, and how often it is written where a number and a star stand before it.
pub fn piece(alloc: Global, word: &str) -> Result<(Vec<u8>, u32), NoRow> {
    if let Some((count, text)) = word.split_once("*") {
        let count = count.parse::<u32>().map_err(|_| NoRow)?;
        Ok((text_of(alloc, text)?, count))
    } else {
        Ok((text_of(alloc, word)?, 1))
    }
}
