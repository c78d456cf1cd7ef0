//! A row of texts is the name of a call and its arguments.

use crate::no_row::NoRow;
use crate::spelling;
use pt_base::{Seq, Text};
use pt_formats::{FormatValue, format, repr};
use pt_strs::{StrErr, find, join, repeat, replace, slice, split, strip};
use std::alloc::Global;
use std::str::SplitWhitespace;

fn next_word<'a>(words: &mut SplitWhitespace<'a>) -> Result<&'a str, NoRow> {
    match words.next() {
        Some(word) => Ok(word),
        None => Err(NoRow),
    }
}

fn next_text(alloc: Global, words: &mut SplitWhitespace) -> Result<Text, NoRow> {
    let word = next_word(words)?;
    spelling::read(alloc, word)
}

/// A text that may be left out.
fn next_option(alloc: Global, words: &mut SplitWhitespace) -> Result<Option<Text>, NoRow> {
    let word = next_word(words)?;
    if word == "none" {
        return Ok(None);
    }
    Ok(Some(spelling::read(alloc, word)?))
}

fn number(word: &str) -> Result<i128, NoRow> {
    match word.parse::<i128>() {
        Ok(number) => Ok(number),
        Err(_) => Err(NoRow),
    }
}

fn next_number(words: &mut SplitWhitespace) -> Result<i128, NoRow> {
    let word = next_word(words)?;
    number(word)
}

/// A number that may be left out.
fn next_index(words: &mut SplitWhitespace) -> Result<Option<i128>, NoRow> {
    let word = next_word(words)?;
    if word == "none" {
        return Ok(None);
    }
    Ok(Some(number(word)?))
}

fn refuse(line: &mut String, error: StrErr) -> Result<(), NoRow> {
    match error {
        StrErr::Length => line.push_str("Length")?,
        StrErr::Format => line.push_str("Format")?,
        StrErr::Empty => line.push_str("Empty")?,
        StrErr::Memory => return Err(NoRow),
    }
    Ok(())
}

fn show(line: &mut String, alloc: Global, answer: Result<Text, StrErr>) -> Result<(), NoRow> {
    match answer {
        Ok(text) => spelling::write(line, alloc, &text),
        Err(error) => refuse(line, error),
    }
}

/// Writes how many texts there are, and each.
fn show_all(
    line: &mut String,
    alloc: Global,
    answer: Result<Seq<Text>, StrErr>,
) -> Result<(), NoRow> {
    match answer {
        Ok(texts) => {
            let count = format!(in alloc; "{}", texts.len())?;
            line.push_str(count.as_str())?;
            for text in texts.as_slice() {
                line.push_str(" ")?;
                spelling::write(line, alloc, text)?;
            }
            Ok(())
        }
        Err(error) => refuse(line, error),
    }
}

fn show_place(line: &mut String, alloc: Global, place: Option<u64>) -> Result<(), NoRow> {
    match place {
        Some(place) => {
            let place = format!(in alloc; "{place}")?;
            line.push_str(place.as_str())?;
        }
        None => line.push_str("none")?,
    }
    Ok(())
}

fn join_row(line: &mut String, alloc: Global, rest: &str) -> Result<(), NoRow> {
    let mut sep = Text::new(alloc);
    let mut parts = Seq::new(alloc);
    let mut first = true;
    for word in rest.split_whitespace() {
        let text = spelling::read(alloc, word)?;
        if first {
            sep = text;
            first = false;
        } else {
            parts.push(text)?;
        }
    }
    show(line, alloc, join(alloc, &sep, parts.as_slice()))
}

fn slice_row(line: &mut String, alloc: Global, rest: &str) -> Result<(), NoRow> {
    let mut words = rest.split_whitespace();
    let text = next_text(alloc, &mut words)?;
    let start = next_index(&mut words)?;
    let stop = next_index(&mut words)?;
    let step = next_index(&mut words)?;
    if let Some(0) = step {
        return Err(NoRow);
    }
    show(line, alloc, slice(alloc, &text, start, stop, step))
}

fn strip_row(line: &mut String, alloc: Global, rest: &str) -> Result<(), NoRow> {
    let mut words = rest.split_whitespace();
    let text = next_text(alloc, &mut words)?;
    let set = next_option(alloc, &mut words)?;
    let side = next_word(&mut words)?;
    let answer = strip(alloc, &text, set.as_ref(), side != "r", side != "l");
    show(line, alloc, answer)
}

fn other_row(line: &mut String, alloc: Global, call: &str, rest: &str) -> Result<(), NoRow> {
    let mut words = rest.split_whitespace();
    let text = next_text(alloc, &mut words)?;
    match call {
        "split" => {
            let sep = next_option(alloc, &mut words)?;
            show_all(line, alloc, split(alloc, &text, sep.as_ref()))
        }
        "replace" => {
            let old = next_text(alloc, &mut words)?;
            let new = next_text(alloc, &mut words)?;
            show(line, alloc, replace(alloc, &text, &old, &new))
        }
        "find" => {
            let part = next_text(alloc, &mut words)?;
            show_place(line, alloc, find(&text, &part))
        }
        "repeat" => {
            let count = next_number(&mut words)?;
            show(line, alloc, repeat(alloc, &text, count))
        }
        "repr" => show(line, alloc, repr(alloc, &text)),
        "str" => {
            let spec = next_text(alloc, &mut words)?;
            show(line, alloc, format(alloc, &FormatValue::Str(text), &spec))
        }
        _ => Err(NoRow),
    }
}

fn int_row(line: &mut String, alloc: Global, rest: &str) -> Result<(), NoRow> {
    let mut words = rest.split_whitespace();
    let number = next_number(&mut words)?;
    let spec = next_text(alloc, &mut words)?;
    show(line, alloc, format(alloc, &FormatValue::Int(number), &spec))
}

pub fn answers(line: &mut String, alloc: Global, call: &str, rest: &str) -> Result<(), NoRow> {
    match call {
        "join" => join_row(line, alloc, rest),
        "slice" => slice_row(line, alloc, rest),
        "strip" => strip_row(line, alloc, rest),
        "int" => int_row(line, alloc, rest),
        _ => other_row(line, alloc, call, rest),
    }
}
