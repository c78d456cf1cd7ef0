//! A row of two sets is an operator, the items of the first, a `,` and those of the second. What is
//! answered is the items of the result.

use crate::no_row::NoRow;
use pt_base::{BinOp, Text};
use pt_dicts::{combine, key_of};
use pt_heap::{Dict, Heap, Object, Seed, Str, Value};
use std::alloc::Global;

/// The value that a word spells; what is no integer and no name is a text.
fn value(alloc: Global, heap: &mut Heap, word: &str) -> Result<Value, NoRow> {
    match word {
        "None" => Ok(Value::None),
        "True" => Ok(Value::Bool(true)),
        "False" => Ok(Value::Bool(false)),
        _ => match word.parse::<i128>() {
            Ok(number) => Ok(Value::Int(number)),
            Err(_) => {
                let text = Text::from_str(alloc, word)?;
                Ok(Value::Obj(heap.add(Object::Str(Str::new(text)))?))
            }
        },
    }
}

fn set_of(alloc: Global, heap: &mut Heap, words: &str) -> Result<Dict, NoRow> {
    let mut set = Dict::new(alloc, Seed::of(words.as_bytes()));
    for word in words.split_whitespace() {
        let item = value(alloc, heap, word)?;
        let Ok(key) = key_of(alloc, heap, item) else {
            return Err(NoRow);
        };
        if set.get(&key).is_none() {
            set.insert(key, item, Value::None)?;
        }
    }
    Ok(set)
}

fn show(line: &mut String, alloc: Global, heap: &Heap, item: Value) -> Result<(), NoRow> {
    match item {
        Value::None => line.push_str("None")?,
        Value::Bool(true) => line.push_str("True")?,
        Value::Bool(false) => line.push_str("False")?,
        Value::Int(number) => {
            let digits = format!(in alloc; "{number}")?;
            line.push_str(digits.as_str())?;
        }
        Value::Obj(id) if id.0 < heap.len() => match heap.get(id) {
            Object::Str(text) => line.push_str(text.text().as_str())?,
            _ => return Err(NoRow),
        },
        _ => return Err(NoRow),
    }
    line.push_str(" ")?;
    Ok(())
}

/// What an operation gives.
fn result(alloc: Global, operator: &str, a: &Dict, b: &Dict) -> Result<Dict, NoRow> {
    match operator {
        "|" => Ok(combine(alloc, BinOp::BitOr, a, b)?),
        "&" => Ok(combine(alloc, BinOp::BitAnd, a, b)?),
        "-" => Ok(combine(alloc, BinOp::Sub, a, b)?),
        "^" => Ok(combine(alloc, BinOp::BitXor, a, b)?),
        _ => Err(NoRow),
    }
}

pub fn answers(line: &mut String, alloc: Global, row: &str) -> Result<(), NoRow> {
    let Some((word, rest)) = row.split_once(" ") else {
        return Err(NoRow);
    };
    let Some((first, second)) = rest.split_once(",") else {
        return Err(NoRow);
    };
    let mut heap = Heap::new(alloc, Seed::of(row.as_bytes()));
    let a = set_of(alloc, &mut heap, first)?;
    let b = set_of(alloc, &mut heap, second)?;
    let all = result(alloc, word, &a, &b)?;
    let mut left = all.entries();
    while let Some(entry) = left.next() {
        show(line, alloc, &heap, entry.first)?;
    }
    Ok(())
}
