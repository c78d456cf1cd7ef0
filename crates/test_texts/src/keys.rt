//! A row of keys is two values with a `=` between them, or the number of tuples inside one another.
//! A value is words: `n t f e N`, `i` and an integer, `s` and a text, `( .. )`, `[] {} <>`, `o1 o2`
//! for two objects, and `x h q` for an instance of a class that has `__eq__`, `__hash__` or both.

use crate::no_row::NoRow;
use crate::spelling;
use pt_base::{ObjId, Seq, Text};
use pt_builtin_objects::start;
use pt_dicts::{KeyErr, key_of, name_key};
use pt_heap::{Class, Dict, Heap, Instance, Object, Seed, Str, Value};
use std::alloc::Global;

fn seed() -> Seed {
    Seed::of(b"keys")
}

/// A class with these names, each bound to None.
fn class_of(alloc: Global, base: ObjId, names: &[&str]) -> Result<Object, NoRow> {
    let mut dict = Dict::new(alloc, seed());
    for name in names {
        let key = name_key(alloc, name)?;
        dict.insert(key, Value::None, Value::None)?;
    }
    Ok(Object::Class(Class {
        name: Text::new(alloc),
        base: Some(base),
        scripted: true,
        names: dict,
    }))
}

/// An instance of a class whose base has these names.
fn instance(alloc: Global, heap: &mut Heap, names: &[&str]) -> Result<Value, NoRow> {
    let base = heap.add(class_of(alloc, ObjId(0), names)?)?;
    let class = heap.add(class_of(alloc, base, &[])?)?;
    let instance = Instance {
        class,
        names: Dict::new(alloc, seed()),
    };
    Ok(Value::Obj(heap.add(Object::Instance(instance))?))
}

/// The value of a word that is an `i` or `s` with what stands behind it.
fn longer(alloc: Global, heap: &mut Heap, word: &str) -> Result<Value, NoRow> {
    if let Some(digits) = word.strip_prefix("i") {
        return match digits.parse::<i128>() {
            Ok(number) => Ok(Value::Int(number)),
            Err(_) => Err(NoRow),
        };
    }
    let Some(text) = word.strip_prefix("s") else {
        return Err(NoRow);
    };
    let text = spelling::read(alloc, text)?;
    Ok(Value::Obj(heap.add(Object::Str(Str::new(text)))?))
}

/// The value of a word that is no bracket.
fn simple(alloc: Global, heap: &mut Heap, word: &str) -> Result<Value, NoRow> {
    match word {
        "n" => Ok(Value::None),
        "t" => Ok(Value::Bool(true)),
        "f" => Ok(Value::Bool(false)),
        "e" => Ok(Value::Ellipsis),
        "N" => Ok(Value::NotImplemented),
        "o1" => Ok(Value::Obj(ObjId(0))),
        "o2" => Ok(Value::Obj(ObjId(1))),
        "[]" => Ok(Value::Obj(heap.add(Object::List(Seq::new(alloc)))?)),
        "{}" => Ok(Value::Obj(heap.add(Object::Dict(Dict::new(alloc, seed())))?)),
        "<>" => Ok(Value::Obj(heap.add(Object::Set(Dict::new(alloc, seed())))?)),
        "x" => instance(alloc, heap, &["__eq__"]),
        "h" => instance(alloc, heap, &["__hash__"]),
        "q" => instance(alloc, heap, &["__eq__", "__hash__"]),
        _ => longer(alloc, heap, word),
    }
}

/// The value that words spell.
fn read(alloc: Global, heap: &mut Heap, words: &str) -> Result<Value, NoRow> {
    let mut open = Seq::new(alloc);
    let mut items = Seq::new(alloc);
    for word in words.split_whitespace() {
        if word == "(" {
            open.push(items)?;
            items = Seq::new(alloc);
            continue;
        }
        let value = if word == ")" {
            let Some(outer) = open.pop() else {
                return Err(NoRow);
            };
            let inner = items;
            items = outer;
            Value::Obj(heap.add(Object::Tuple(inner))?)
        } else {
            simple(alloc, heap, word)?
        };
        items.push(value)?;
    }
    match items.pop() {
        Some(value) => Ok(value),
        None => Err(NoRow),
    }
}

/// Writes the number of a class that a run starts with, and `x` for another.
fn show_class(line: &mut String, alloc: Global, class: ObjId) -> Result<(), NoRow> {
    if class.0 > 84 {
        line.push_str("x")?;
        return Ok(());
    }
    let number = format!(in alloc; "{}", class.0)?;
    line.push_str(number.as_str())?;
    Ok(())
}

fn refuse(line: &mut String, alloc: Global, error: KeyErr) -> Result<(), NoRow> {
    match error {
        KeyErr::Unhashable { class } => {
            line.push_str("Unhashable ")?;
            show_class(line, alloc, class)
        }
        KeyErr::UserHash { class } => {
            line.push_str("UserHash ")?;
            show_class(line, alloc, class)
        }
        KeyErr::Deep => {
            line.push_str("Deep")?;
            Ok(())
        }
        KeyErr::Memory => Err(NoRow),
    }
}

/// Writes whether two values are the same key.
pub fn compare(line: &mut String, alloc: Global, row: &str) -> Result<(), NoRow> {
    let Some((first, second)) = row.split_once(" = ") else {
        return Err(NoRow);
    };
    let mut heap = start(alloc, seed())?;
    let first = read(alloc, &mut heap, first)?;
    let second = read(alloc, &mut heap, second)?;
    match key_of(alloc, &heap, first) {
        Ok(key) => match key_of(alloc, &heap, second) {
            Ok(other) if key == other => line.push_str("same")?,
            Ok(_) => line.push_str("other")?,
            Err(error) => refuse(line, alloc, error)?,
        },
        Err(error) => refuse(line, alloc, error)?,
    }
    Ok(())
}

/// Writes whether so many tuples inside one another are a key.
pub fn nest(line: &mut String, alloc: Global, row: &str) -> Result<(), NoRow> {
    let Ok(depth) = row.parse::<u32>() else {
        return Err(NoRow);
    };
    let mut heap = Heap::new(alloc, seed());
    let mut value = Value::None;
    for _turn in 0..depth {
        let items = Seq::from_slice(alloc, [value].as_slice())?;
        value = Value::Obj(heap.add(Object::Tuple(items))?);
    }
    match key_of(alloc, &heap, value) {
        Ok(_) => line.push_str("key")?,
        Err(error) => refuse(line, alloc, error)?,
    }
    Ok(())
}
