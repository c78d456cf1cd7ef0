//! A row of attributes is words: `c:NAME:CLASS` makes a class with a base, `i:NAME:CLASS` an
//! instance, `e:NAME:CLASS` an exception; `s:VALUE:NAME:VALUE` gives a name a value, `d:VALUE:NAME`
//! takes it away, `l:VALUE:NAME` looks it up, `p:CLASS:NAME` in the bases of a class; `n:COUNT`
//! makes `Z`, the class that stands behind so many bases of which the first is `A`. A value is a
//! named one, an integer, or `f` with the number of a function.

use crate::no_row::NoRow;
use pt_attrs::{Found, NoAttr, delete, lookup, store, super_of};
use pt_base::{BlockId, Failure, ObjId, Seq, Text};
use pt_builtin_objects::start;
use pt_heap::{Binding, Class, Dict, Error, Function, Heap, Instance, Object, Seed, Str, Value};
use std::alloc::Global;

/// A heap, and the values with names in it.
#[derive(Drop)]
struct Scene {
    heap: Heap,
    named: Seq<Binding>,
}

fn seed() -> Seed {
    Seed::of(b"attributes")
}

/// The place of a class that a run starts with.
fn builtin(word: &str) -> Option<ObjId> {
    match word {
        "object" => Some(ObjId(0)),
        "int" => Some(ObjId(2)),
        "Exception" => Some(ObjId(29)),
        _ => None,
    }
}

/// An object that a word stands for alone.
fn object(alloc: Global, word: &str) -> Result<Object, NoRow> {
    match word {
        "text" => Ok(Object::Str(Str::new(Text::new(alloc)))),
        "list" => Ok(Object::List(Seq::new(alloc))),
        "dict" => Ok(Object::Dict(Dict::new(alloc, seed()))),
        "set" => Ok(Object::Set(Dict::new(alloc, seed()))),
        _ => {
            let Some(number) = word.strip_prefix("f") else {
                return Err(NoRow);
            };
            let Ok(number) = number.parse::<u32>() else {
                return Err(NoRow);
            };
            Ok(Object::Function(Function {
                block: BlockId(number),
                hidden: false,
                defaults: Seq::new(alloc),
                cells: Seq::new(alloc),
            }))
        }
    }
}

/// The value that a word spells.
fn value(alloc: Global, scene: &mut Scene, word: &str) -> Result<Value, NoRow> {
    for binding in scene.named.as_slice() {
        if binding.name.as_str() == word {
            return Ok(binding.value);
        }
    }
    if let Some(class) = builtin(word) {
        return Ok(Value::Obj(class));
    }
    if let Ok(number) = word.parse::<i128>() {
        return Ok(Value::Int(number));
    }
    let object = object(alloc, word)?;
    Ok(Value::Obj(scene.heap.add(object)?))
}

fn class_at(alloc: Global, scene: &mut Scene, word: &str) -> Result<ObjId, NoRow> {
    match value(alloc, scene, word)? {
        Value::Obj(id) => Ok(id),
        _ => Err(NoRow),
    }
}

fn add_class(alloc: Global, heap: &mut Heap, name: &str, base: ObjId) -> Result<ObjId, NoRow> {
    let name = Text::from_str(alloc, name)?;
    let class = Class {
        name,
        base: Some(base),
        scripted: true,
        names: Dict::new(alloc, seed()),
    };
    Ok(heap.add(Object::Class(class))?)
}

fn bind(alloc: Global, scene: &mut Scene, name: &str, id: ObjId) -> Result<(), NoRow> {
    let name = Text::from_str(alloc, name)?;
    scene.named.push(Binding {
        name,
        value: Value::Obj(id),
    })?;
    Ok(())
}

/// Makes a class, an instance or an exception, and gives it a name.
fn make(alloc: Global, scene: &mut Scene, kind: &str, rest: &str) -> Result<(), NoRow> {
    let Some((name, class)) = rest.split_once(":") else {
        return Err(NoRow);
    };
    let class = class_at(alloc, scene, class)?;
    let names = Dict::new(alloc, seed());
    let id = match kind {
        "c" => add_class(alloc, &mut scene.heap, name, class)?,
        "i" => scene.heap.add(Object::Instance(Instance { class, names }))?,
        _ => scene.heap.add(Object::Error(Error {
            class,
            args: Seq::new(alloc),
            cause: None,
            context: None,
            hides_context: false,
            trace: Seq::new(alloc),
            names,
        }))?,
    };
    bind(alloc, scene, name, id)
}

/// Makes a class behind so many bases.
fn nest(alloc: Global, scene: &mut Scene, count: &str) -> Result<(), NoRow> {
    let Ok(count) = count.parse::<u32>() else {
        return Err(NoRow);
    };
    let mut class = class_at(alloc, scene, "A")?;
    for _turn in 0..count {
        class = add_class(alloc, &mut scene.heap, "Z", class)?;
    }
    bind(alloc, scene, "Z", class)
}

/// Writes a value, a function with a letter.
fn show(
    line: &mut String,
    alloc: Global,
    heap: &Heap,
    value: Value,
    letter: &str,
) -> Result<(), NoRow> {
    match value {
        Value::Int(number) => {
            let digits = format!(in alloc; "{number}")?;
            line.push_str(digits.as_str())?;
        }
        Value::Obj(id) if id.0 < heap.len() => match heap.get(id) {
            Object::Function(function) => {
                let number = format!(in alloc; "{letter}{}", function.block.0)?;
                line.push_str(number.as_str())?;
            }
            Object::Class(class) => line.push_str(class.name.as_str())?,
            _ => return Err(NoRow),
        },
        _ => return Err(NoRow),
    }
    Ok(())
}

fn show_found(
    line: &mut String,
    alloc: Global,
    heap: &Heap,
    found: Result<Found, Failure<NoAttr>>,
) -> Result<(), NoRow> {
    match found {
        Ok(Found::Plain(value)) => show(line, alloc, heap, value, "f"),
        Ok(Found::Bound(value)) => show(line, alloc, heap, value, "m"),
        Ok(Found::Unbuilt) => {
            line.push_str("unbuilt")?;
            Ok(())
        }
        Err(Failure::Refused(NoAttr)) => {
            line.push_str("-")?;
            Ok(())
        }
        Err(Failure::Memory) => Err(NoRow),
    }
}

fn show_done(line: &mut String, done: Result<(), Failure<NoAttr>>) -> Result<(), NoRow> {
    match done {
        Ok(()) => line.push_str("ok")?,
        Err(Failure::Refused(NoAttr)) => line.push_str("-")?,
        Err(Failure::Memory) => return Err(NoRow),
    }
    Ok(())
}

/// Looks a name up, or takes it away.
fn ask(
    line: &mut String,
    alloc: Global,
    scene: &mut Scene,
    kind: &str,
    rest: &str,
) -> Result<(), NoRow> {
    let Some((word, name)) = rest.split_once(":") else {
        return Err(NoRow);
    };
    if kind == "p" {
        let class = class_at(alloc, scene, word)?;
        let found = super_of(alloc, &scene.heap, class, name);
        return show_found(line, alloc, &scene.heap, found);
    }
    let value = value(alloc, scene, word)?;
    if kind == "l" {
        let found = lookup(alloc, &scene.heap, value, name);
        return show_found(line, alloc, &scene.heap, found);
    }
    let done = delete(alloc, &mut scene.heap, value, name);
    show_done(line, done)
}

/// Gives a name a value.
fn set(line: &mut String, alloc: Global, scene: &mut Scene, rest: &str) -> Result<(), NoRow> {
    let Some((word, rest)) = rest.split_once(":") else {
        return Err(NoRow);
    };
    let Some((name, new)) = rest.split_once(":") else {
        return Err(NoRow);
    };
    let to = value(alloc, scene, word)?;
    let new = value(alloc, scene, new)?;
    let done = store(alloc, &mut scene.heap, to, name, new);
    show_done(line, done)
}

/// Does what a word says, and writes the answer.
fn answer(line: &mut String, alloc: Global, scene: &mut Scene, word: &str) -> Result<(), NoRow> {
    let Some((kind, rest)) = word.split_once(":") else {
        return Err(NoRow);
    };
    match kind {
        "c" | "i" | "e" => make(alloc, scene, kind, rest),
        "n" => nest(alloc, scene, rest),
        "s" => set(line, alloc, scene, rest),
        "d" | "l" | "p" => ask(line, alloc, scene, kind, rest),
        _ => Err(NoRow),
    }
}

pub fn answers(line: &mut String, alloc: Global, row: &str) -> Result<(), NoRow> {
    let mut scene = Scene {
        heap: start(alloc, seed())?,
        named: Seq::new(alloc),
    };
    for word in row.split_whitespace() {
        answer(line, alloc, &mut scene, word)?;
        line.push_str(" ")?;
    }
    Ok(())
}
