//! Texts as words: code points in hexadecimal with dots between them, `*N*C` for one N times, `-`
//! for none.

use crate::no_row::NoRow;
use pt_base::Text;
use pt_strs::{Draft, char_count};
use std::alloc::Global;

fn character(word: &str) -> Result<char, NoRow> {
    let Ok(code) = u32::from_str_radix(word, 16) else {
        return Err(NoRow);
    };
    match char::from_u32(code) {
        Some(c) => Ok(c),
        None => Err(NoRow),
    }
}

/// How many characters are written at once.
const CHUNK: u32 = 4096;

/// Writes a character as often as `N*C` says.
fn push_times(alloc: Global, draft: &mut Draft, word: &str) -> Result<(), NoRow> {
    let Some((count, code)) = word.split_once("*") else {
        return Err(NoRow);
    };
    let Ok(count) = count.parse::<u32>() else {
        return Err(NoRow);
    };
    let c = character(code)?;
    let mut chunk = Draft::new(alloc);
    for _turn in 0..CHUNK {
        chunk.push(c)?;
    }
    let chunk = chunk.into_text();
    for _turn in 0..count / CHUNK {
        draft.push_str(chunk.as_str())?;
    }
    for _turn in 0..count % CHUNK {
        draft.push(c)?;
    }
    Ok(())
}

/// The text that a word spells.
pub fn read(alloc: Global, word: &str) -> Result<Text, NoRow> {
    let mut draft = Draft::new(alloc);
    if word != "-" {
        for part in word.split(".") {
            match part.strip_prefix("*") {
                Some(times) => push_times(alloc, &mut draft, times)?,
                None => draft.push(character(part)?)?,
            }
        }
    }
    Ok(draft.into_text())
}

fn push_code(line: &mut String, alloc: Global, c: char) -> Result<(), NoRow> {
    let code = format!(in alloc; "{:x}", c as u32)?;
    line.push_str(code.as_str())?;
    Ok(())
}

/// Writes a text as its code points.
fn write_short(line: &mut String, alloc: Global, text: &str) -> Result<(), NoRow> {
    if text.is_empty() {
        line.push_str("-")?;
    }
    let mut first = true;
    for c in text.chars() {
        if !first {
            line.push_str(".")?;
        }
        push_code(line, alloc, c)?;
        first = false;
    }
    Ok(())
}

/// Writes the length of a text and its ends.
fn write_long(line: &mut String, alloc: Global, count: usize, text: &str) -> Result<(), NoRow> {
    let length = format!(in alloc; "#{count}")?;
    line.push_str(length.as_str())?;
    if let Some(c) = text.chars().next() {
        line.push_str(" ")?;
        push_code(line, alloc, c)?;
    }
    if let Some(c) = text.chars().next_back() {
        line.push_str(" ")?;
        push_code(line, alloc, c)?;
    }
    Ok(())
}

/// Writes a text; of a long one its length and its ends alone.
pub fn write(line: &mut String, alloc: Global, text: &Text) -> Result<(), NoRow> {
    let count = char_count(text.as_str());
    if count > 200 {
        return write_long(line, alloc, count, text.as_str());
    }
    write_short(line, alloc, text.as_str())
}
