//! Of which classes a value is.

ghost use Rattle.std.specs.Prelude.{◌≡◌, ◌+◌, IfOk};
ghost use Rattle.pt_content.specs.pt_attrs.Look.{object_of};
ghost use Rattle.pt_prims.specs.Classes.{derives, is_class, is_of, is_of_classes, kinship_of};
ghost use Rattle.pt_prims.specs.Classes.{kinship_answer, kinship_by, kinship_of_any, subclass_by};
ghost use Rattle.pt_prims.specs.Classes.{tuple_kinship};

use pt_base::{Memory, ObjId};
use pt_content::{Content, RECURSION_ERROR, TYPE_ERROR, bad_argument, class_at, object_of, raise};
use pt_heap::{Heap, Object, Value};
use pt_methods::truth_value;
use std::alloc::Global;

/// How many tuples of classes may stand inside one another.
const DEPTH_LIMIT: u32 = 1000;

/// Whether a class is of another one.
#[derive(Clone, Copy, Debug, PartialEq, Eq)]
pub enum Kinship {
    Told(bool),
    /// More than 1,000 tuples stand inside one another.
    Deep,
    /// What stands there is no class.
    NoClass,
}

/// Whether a class is another one or has it among its bases (Language Reference 8.4.1, 8.8), in
/// time linear in how many bases it has.
pub fn derives(heap: &Heap, from: ObjId, class: ObjId) -> bool
    ensures { result ≡ derives heap.now from class }
{
    let mut at = class;
    for _step in 0..class.0 as u64 + 1 {
        if at.0 == from.0 {
            return true;
        }
        let Some(class) = class_at(heap, at) else {
            return false;
        };
        let Some(base) = class.base else {
            return false;
        };
        at = base;
    }
    false
}

fn is_class(heap: &Heap, value: Value) -> bool
    ensures { result ≡ is_class heap.now value }
{
    matches!(object_of(heap, value), Some(Object::Class(_)))
}

/// Whether a class is another one or has it among its bases.
pub fn is_of(heap: &Heap, class: Value, from: Value) -> bool
    ensures { result ≡ is_of heap.now class from }
{
    match (class, from) {
        (Value::Obj(class), Value::Obj(from)) => derives(heap, from, class),
        _ => false,
    }
}

/// Whether a class is of a class, or of one in a tuple of these, in which so many tuples may stand
/// inside one another.
#[cycle(kinships)]
fn kinship_of(heap: &Heap, class: Value, classes: Value, depth: u32) -> Kinship
    ensures { result ≡ kinship_of (tuple_kinship heap.now depth class) heap.now class classes }
{
    match object_of(heap, classes) {
        Some(Object::Tuple(items)) => tuple_kinship(heap, class, items.as_slice(), depth),
        Some(Object::Class(_)) => Kinship::Told(is_of(heap, class, classes)),
        _ => Kinship::NoClass,
    }
}

/// The same of any of some values, from left to right.
#[cycle(kinships)]
fn kinship_of_any(heap: &Heap, class: Value, values: &[Value], depth: u32) -> Kinship
    ensures { result
        ≡ kinship_of_any (kinship_of (tuple_kinship heap.now depth class) heap.now class) values.now }
{
    for value in values {
        match kinship_of(heap, class, *value, depth) {
            Kinship::Told(false) => {}
            found => return found,
        }
    }
    Kinship::Told(false)
}

/// The same of the values of a tuple, in which so many tuples may stand inside one another, it among
/// them.
#[cycle(kinships)]
fn tuple_kinship(heap: &Heap, class: Value, values: &[Value], depth: u32) -> Kinship
    ensures { result ≡ tuple_kinship heap.now depth class values.now }
{
    if depth == 0 {
        return Kinship::Deep;
    }
    kinship_of_any(heap, class, values, depth - 1)
}

fn kinship_answer(alloc: Global, kinship: Kinship) -> Result<Content, Memory>
    ensures { IfOk result (λ content. content ≡ kinship_answer kinship) }
{
    match kinship {
        Kinship::Told(truth) => Ok(truth_value(truth)),
        Kinship::Deep => raise(alloc, RECURSION_ERROR, "too many activations"),
        Kinship::NoClass => bad_argument(alloc, TYPE_ERROR),
    }
}

/// `isinstance` of a value of this class, of a class or a tuple of classes and such tuples.
pub(crate) fn is_of_classes(
    alloc: Global,
    heap: &Heap,
    class: Value,
    classes: Value,
) -> Result<Content, Memory>
    ensures { IfOk result (λ content. content ≡ is_of_classes heap.now class classes) }
{
    kinship_answer(alloc, kinship_of(heap, class, classes, DEPTH_LIMIT))
}

/// `issubclass`
pub(crate) fn subclass_by(
    alloc: Global,
    heap: &Heap,
    class: Value,
    classes: Value,
) -> Result<Content, Memory>
    ensures { IfOk result (λ content. content ≡ subclass_by heap.now class classes) }
{
    if !is_class(heap, class) {
        return bad_argument(alloc, TYPE_ERROR);
    }
    is_of_classes(alloc, heap, class, classes)
}
