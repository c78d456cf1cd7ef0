//! A row of a dictionary is words: `s:KEY:VALUE` gives a key a value, `g:KEY` asks for it, `d:KEY`
//! takes it out, `a:NUMBER` asks for an entry, `c` goes on with a copy, `t` drops the holes, and
//! `f:COUNT` puts in the numbers below it, each with itself. Behind the answers stand the entries,
//! or how many there are where they are many.

use crate::no_row::NoRow;
use pt_base::{Dup, Seq};
use pt_heap::{Dict, DictErr, Key, Seed, Value};
use std::alloc::Global;

/// The most entries that are shown.
const SHOWN: u32 = 1_000;

/// The value that a word spells.
fn value(word: &str) -> Result<Value, NoRow> {
    match word {
        "True" => Ok(Value::Bool(true)),
        "False" => Ok(Value::Bool(false)),
        _ => match word.parse::<i128>() {
            Ok(number) => Ok(Value::Int(number)),
            Err(_) => Err(NoRow),
        },
    }
}

/// The key of the value that a word spells. A truth value is the number that it stands for.
fn key(alloc: Global, word: &str) -> Result<Key, NoRow> {
    let number = match word {
        "True" => "1",
        "False" => "0",
        _ => word,
    };
    Ok(Key::new(Seq::from_slice(alloc, number.as_bytes())?))
}

fn show(line: &mut String, alloc: Global, value: Option<Value>) -> Result<(), NoRow> {
    match value {
        Some(Value::Bool(true)) => line.push_str("True")?,
        Some(Value::Bool(false)) => line.push_str("False")?,
        Some(Value::Int(number)) => {
            let digits = format!(in alloc; "{number}")?;
            line.push_str(digits.as_str())?;
        }
        Some(_) => line.push_str("?")?,
        None => line.push_str("-")?,
    }
    Ok(())
}

/// Writes an entry by its number, as its key and its value.
fn show_entry(line: &mut String, alloc: Global, dict: &Dict, number: u32) -> Result<(), NoRow> {
    match dict.at(number) {
        Some((first, value)) => {
            show(line, alloc, Some(first))?;
            line.push_str("=")?;
            show(line, alloc, Some(value))
        }
        None => show(line, alloc, None),
    }
}

/// Gives a key a value, and writes the value that it had.
fn set(line: &mut String, alloc: Global, dict: &mut Dict, rest: &str) -> Result<(), NoRow> {
    let Some((first, second)) = rest.split_once(":") else {
        return Err(NoRow);
    };
    let key = key(alloc, first)?;
    match dict.insert(key, value(first)?, value(second)?) {
        Ok(old) => show(line, alloc, old),
        Err(DictErr::Length) => {
            line.push_str("Length")?;
            Ok(())
        }
        Err(DictErr::Memory) => Err(NoRow),
    }
}

/// Puts in each number below a count.
fn fill(alloc: Global, dict: &mut Dict, count: &str) -> Result<(), NoRow> {
    let Ok(count) = count.parse::<u32>() else {
        return Err(NoRow);
    };
    for number in 0..count {
        let digits = format!(in alloc; "{number}")?;
        let key = key(alloc, digits.as_str())?;
        dict.insert(key, Value::Int(number as i128), Value::Int(number as i128))?;
    }
    Ok(())
}

/// Writes the entries behind the answers, or how many there are.
fn show_entries(line: &mut String, alloc: Global, dict: &Dict) -> Result<(), NoRow> {
    line.push_str("|")?;
    if dict.len() > SHOWN {
        let count = format!(in alloc; " {} entries", dict.len())?;
        line.push_str(count.as_str())?;
        return Ok(());
    }
    for number in 0..dict.len() {
        line.push_str(" ")?;
        show_entry(line, alloc, dict, number)?;
    }
    Ok(())
}

/// Does what a word says, and writes the answer.
fn answer(line: &mut String, alloc: Global, dict: &mut Dict, word: &str) -> Result<(), NoRow> {
    match word.split_once(":") {
        Some(("s", rest)) => set(line, alloc, dict, rest),
        Some(("g", rest)) => {
            let key = key(alloc, rest)?;
            show(line, alloc, dict.get(&key))
        }
        Some(("d", rest)) => {
            let key = key(alloc, rest)?;
            let old = dict.remove(&key);
            show(line, alloc, old)
        }
        Some(("a", rest)) => match rest.parse::<u32>() {
            Ok(number) => show_entry(line, alloc, dict, number),
            Err(_) => Err(NoRow),
        },
        Some(("f", rest)) => fill(alloc, dict, rest),
        None if word == "t" => {
            dict.settle();
            Ok(())
        }
        _ => Err(NoRow),
    }
}

pub fn answers(line: &mut String, alloc: Global, row: &str) -> Result<(), NoRow> {
    let mut dict = Dict::new(alloc, Seed::of(row.as_bytes()));
    for word in row.split_whitespace() {
        if word == "c" {
            let copy = dict.dup(alloc)?;
            dict = copy;
        } else {
            answer(line, alloc, &mut dict, word)?;
        }
        line.push_str(" ")?;
    }
    show_entries(line, alloc, &dict)
}
