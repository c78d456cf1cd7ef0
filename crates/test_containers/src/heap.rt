use crate::no_row::NoRow;
use pt_base::{ObjId, Text};
use pt_builtin_objects::start;
use pt_dicts::name_key;
use pt_heap::{Class, Dict, Heap, Instance, Object, Seed, Value};
use std::alloc::Global;

/// Where the instances of a script's classes stand, by their words: one that is a key by object,
/// one whose class has `__eq__` alone, and one whose class has `__hash__`.
pub const INSTANCES: [(&str, u32); 3] = [("x", 88), ("q", 89), ("h", 90)];

fn seed() -> Seed {
    Seed::of(b"steps")
}

/// A class of a script, with a special method or without one.
fn class(alloc: Global, name: &str, method: Option<&str>) -> Result<Object, NoRow> {
    let mut names = Dict::new(alloc, seed());
    if let Some(method) = method {
        let key = name_key(alloc, method)?;
        names.insert(key, Value::None, Value::Ellipsis)?;
    }
    Ok(Object::Class(Class {
        name: Text::from_str(alloc, name)?,
        base: Some(ObjId(0)),
        scripted: true,
        names,
    }))
}

fn instance(alloc: Global, class: u32) -> Object {
    Object::Instance(Instance {
        class: ObjId(class),
        names: Dict::new(alloc, seed()),
    })
}

/// The objects of a run's start, and behind them three classes of a script, each with an instance.
pub fn heap_of_objects(alloc: Global) -> Result<Heap, NoRow> {
    let mut heap = start(alloc, seed())?;
    heap.add(class(alloc, "Plain", None)?)?;
    heap.add(class(alloc, "Equal", Some("__eq__"))?)?;
    heap.add(class(alloc, "Hashed", Some("__hash__"))?)?;
    heap.add(instance(alloc, 85))?;
    heap.add(instance(alloc, 86))?;
    heap.add(instance(alloc, 87))?;
    Ok(heap)
}
