//! An operand is `n t f e N`, `i` and an integer, `s` and a text, `s*N*TEXT` that so many times, `(A;B)` and
//! `<A;B>` a tuple and a list, `[A:B:C]` a slice, `rA,B,C` a range, and `D X M` a dictionary, an instance of a
//! script's class and a module.

use crate::no_row::NoRow;
use pt_base::{ObjId, Seq, Text};
use pt_builtin_objects::start;
use pt_heap::{Class, Dict, Heap, Instance, Object, Range, Seed, Slice, Str, Value};
use std::alloc::Global;

/// Where the objects of words stand.
const DICTIONARY: ObjId = ObjId(85);

const SCRIPTED: ObjId = ObjId(86);

const INSTANCE: ObjId = ObjId(87);

const MODULE: ObjId = ObjId(77);

fn seed() -> Seed {
    Seed::of(b"operations")
}

/// The objects of a run's start, and behind them those of words.
pub fn start_of_row(alloc: Global) -> Result<Heap, NoRow> {
    let mut heap = start(alloc, seed())?;
    heap.add(Object::Dict(Dict::new(alloc, seed())))?;
    heap.add(Object::Class(Class {
        name: Text::from_str(alloc, "Scripted")?,
        base: Some(ObjId(0)),
        scripted: true,
        names: Dict::new(alloc, seed()),
    }))?;
    heap.add(Object::Instance(Instance {
        class: SCRIPTED,
        names: Dict::new(alloc, seed()),
    }))?;
    Ok(heap)
}

/// The word of the object at a place.
pub fn object_word(id: ObjId) -> Option<&'static str> {
    match id {
        DICTIONARY => Some("D"),
        INSTANCE => Some("X"),
        MODULE => Some("M"),
        _ => None,
    }
}

fn number_of(digits: &str) -> Result<i128, NoRow> {
    match digits.parse::<i128>() {
        Ok(number) => Ok(number),
        Err(_) => Err(NoRow),
    }
}

/// A text so many times.
fn repeated(alloc: Global, times: &str) -> Result<Text, NoRow> {
    let Some((count, piece)) = times.split_once("*") else {
        return Err(NoRow);
    };
    let piece = Text::from_str(alloc, piece)?;
    match pt_strs::repeat(alloc, &piece, number_of(count)?) {
        Ok(text) => Ok(text),
        Err(_) => Err(NoRow),
    }
}

/// A text, in which `_` stands for a blank.
fn blanked(alloc: Global, spelling: &str) -> Result<Text, NoRow> {
    let mut text = Text::new(alloc);
    let mut is_behind = false;
    for part in spelling.split("_") {
        if is_behind {
            text.push_str(" ")?;
        }
        text.push_str(part)?;
        is_behind = true;
    }
    Ok(text)
}

fn text_of(alloc: Global, heap: &mut Heap, spelling: &str) -> Result<Value, NoRow> {
    let text = match spelling.strip_prefix("*") {
        Some(times) => repeated(alloc, times)?,
        None => blanked(alloc, spelling)?,
    };
    Ok(Value::Obj(heap.add(Object::Str(Str::new(text)))?))
}

fn range_of(heap: &mut Heap, words: &str) -> Result<Value, NoRow> {
    let Some((start, rest)) = words.split_once(",") else {
        return Err(NoRow);
    };
    let Some((stop, step)) = rest.split_once(",") else {
        return Err(NoRow);
    };
    let range = Range {
        start: number_of(start)?,
        stop: number_of(stop)?,
        step: number_of(step)?,
    };
    Ok(Value::Obj(heap.add(Object::Range(range))?))
}

/// The value of a word without others in it. Each text is an object of its own.
fn plain(alloc: Global, heap: &mut Heap, word: &str) -> Result<Value, NoRow> {
    match word {
        "n" => Ok(Value::None),
        "t" => Ok(Value::Bool(true)),
        "f" => Ok(Value::Bool(false)),
        "e" => Ok(Value::Ellipsis),
        "N" => Ok(Value::NotImplemented),
        "D" => Ok(Value::Obj(DICTIONARY)),
        "X" => Ok(Value::Obj(INSTANCE)),
        "M" => Ok(Value::Obj(MODULE)),
        _ => match word.split_at_checked(1) {
            Some(("i", digits)) => Ok(Value::Int(number_of(digits)?)),
            Some(("s", spelling)) => text_of(alloc, heap, spelling),
            Some(("r", words)) => range_of(heap, words),
            _ => Err(NoRow),
        },
    }
}

/// The values of words between brackets.
fn items_of(
    alloc: Global,
    heap: &mut Heap,
    words: &str,
    closing: &str,
) -> Result<Seq<Value>, NoRow> {
    let mut items = Seq::new(alloc);
    let Some(words) = words.strip_suffix(closing) else {
        return Err(NoRow);
    };
    if words.is_empty() {
        return Ok(items);
    }
    for word in words.split(";") {
        items.push(plain(alloc, heap, word)?)?;
    }
    Ok(items)
}

fn slice_of(alloc: Global, heap: &mut Heap, words: &str) -> Result<Value, NoRow> {
    let Some((start, rest)) = words.split_once(":") else {
        return Err(NoRow);
    };
    let Some((stop, step)) = rest.split_once(":") else {
        return Err(NoRow);
    };
    let Some(step) = step.strip_suffix("]") else {
        return Err(NoRow);
    };
    let slice = Slice {
        start: plain(alloc, heap, start)?,
        stop: plain(alloc, heap, stop)?,
        step: plain(alloc, heap, step)?,
    };
    Ok(Value::Obj(heap.add(Object::Slice(slice))?))
}

/// The value of a word.
pub fn value_of(alloc: Global, heap: &mut Heap, word: &str) -> Result<Value, NoRow> {
    match word.split_at_checked(1) {
        Some(("(", words)) => {
            let items = items_of(alloc, heap, words, ")")?;
            Ok(Value::Obj(heap.add(Object::Tuple(items))?))
        }
        Some(("<", words)) => {
            let items = items_of(alloc, heap, words, ">")?;
            Ok(Value::Obj(heap.add(Object::List(items))?))
        }
        Some(("[", words)) => slice_of(alloc, heap, words),
        _ => plain(alloc, heap, word),
    }
}
