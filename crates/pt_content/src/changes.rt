//! Changes of the heap.

ghost use Rattle.std.specs.Prelude.{◌≡◌, ◌-◌, [], ◌∷◌, ◌++◌, length, map, reverse, take};
ghost use Rattle.std.specs.Prelude.{option_copied, IfOk, OnOk, OnErr, Some, None, Err, true, false, if◌then◌else◌};
ghost use Rattle.pt_content.specs.Changes.{added, changed, has_kind, has_room, holding, made};
ghost use Rattle.pt_content.specs.Changes.{next_object, places_from, replaced_by};

use crate::content::{Change, Mutable, NewObject, Replacement};
use pt_attrs::object_at;
use pt_base::{Memory, ObjId, Seq};
use pt_heap::{Heap, HeapErr, Object, Str, Value};
use std::alloc::Global;

/// A new object as it stands in the heap.
fn made(new: NewObject) -> Object
    ensures { result ≡ made new }
{
    match new {
        NewObject::Text(text) => Object::Str(Str::new(text)),
        NewObject::List(items) => Object::List(items),
        NewObject::Tuple(items) => Object::Tuple(items),
        NewObject::Dict(dict) => Object::Dict(dict),
        NewObject::Set(set) => Object::Set(set),
        NewObject::Range(range) => Object::Range(range),
        NewObject::Slice(slice) => Object::Slice(slice),
        NewObject::Cursor(cursor) => Object::Cursor(cursor),
        NewObject::View(view) => Object::View(view),
        NewObject::Method(method) => Object::Method(method),
        NewObject::Builtin(builtin) => Object::Builtin(builtin),
    }
}

/// Puts an object behind the others. A full heap takes none.
pub fn add(heap: &mut Heap, new: NewObject) -> Result<Option<Value>, Memory>
    ensures value { IfOk result
        (λ v. v ≡ (if has_room (new ∷ []) heap.old then Some (next_object heap.old) else None)) }
    ensures ok { OnOk result (heap.new ≡ changed (added (new ∷ [])) heap.old) }
    ensures err { OnErr result (heap.new ≡ heap.old) }
{
    match heap.add(made(new)) {
        Ok(id) => Ok(Some(Value::Obj(id))),
        Err(HeapErr::HeapFull) => Ok(None),
        Err(HeapErr::Memory) => Err(Memory),
    }
}

/// The same objects, the last one first.
fn reversed(alloc: Global, objects: Seq<NewObject>) -> Result<Seq<NewObject>, Memory>
    ensures { IfOk result (λ r. r ≡ reverse objects) }
{
    let mut left = objects;
    let mut reversed = Seq::new(alloc);
    while let Some(last) = left.pop() {
        reversed.push(last)?;
    }
    Ok(reversed)
}

/// Puts objects behind the others, the last one first, as far as the heap takes them.
fn push_all(heap: &mut Heap, objects: Seq<NewObject>) -> Result<(), HeapErr>
    ensures ok { OnOk result (heap.new ≡ heap.old ++ map made (reverse objects)) }
    ensures room { OnOk result (has_room (reverse objects) heap.old ≡ true) }
    ensures full { result ≡ Err HeapErr.HeapFull → has_room (reverse objects) heap.old ≡ false }
    ensures stay { take (length heap.old) heap.new ≡ heap.old }
{
    let mut left = objects;
    while let Some(object) = left.pop() {
        heap.add(made(object))?;
    }
    Ok(())
}

/// Puts objects behind the others, or none where there isn't room for all.
fn add_all(alloc: Global, heap: &mut Heap, objects: Seq<NewObject>) -> Result<bool, Memory>
    ensures room { IfOk result (λ room. room ≡ has_room objects heap.old) }
    ensures ok { OnOk result (heap.new ≡ (if has_room objects heap.old then heap.old ++ map made objects else heap.old)) }
    ensures err { OnErr result (heap.new ≡ heap.old) }
{
    if objects.is_empty() {
        return Ok(true);
    }
    let mark = heap.mark();
    let reversed = reversed(alloc, objects)?;
    match push_all(heap, reversed) {
        Ok(()) => Ok(true),
        Err(error) => {
            heap.back(mark);
            match error {
                HeapErr::HeapFull => Ok(false),
                HeapErr::Memory => Err(Memory),
            }
        }
    }
}

/// Whether an object is of the kind that holds this.
fn has_kind(object: Option<&Object>, new: &Mutable) -> bool
    ensures { result ≡ has_kind new.now (option_copied object.entry) }
{
    match (new, object) {
        (Mutable::List(_), Some(Object::List(_))) => true,
        (Mutable::Dict(_), Some(Object::Dict(_))) => true,
        (Mutable::Set(_), Some(Object::Set(_))) => true,
        (Mutable::Cursor(_), Some(Object::Cursor(_))) => true,
        _ => false,
    }
}

fn holding(new: Mutable) -> Object
    ensures { result ≡ holding new }
{
    match new {
        Mutable::List(items) => Object::List(items),
        Mutable::Dict(dict) => Object::Dict(dict),
        Mutable::Set(set) => Object::Set(set),
        Mutable::Cursor(cursor) => Object::Cursor(cursor),
    }
}

/// Lets an object hold something else. One of another kind stays as it is.
fn replace(heap: &mut Heap, replacement: Replacement)
    ensures { heap.new ≡ replaced_by replacement heap.old }
{
    let Replacement { id, object } = replacement;
    if has_kind(object_at(heap, id), &object) {
        let _ = heap.set(id, holding(object));
    }
}

/// Changes the heap, and answers whether it had room. Else it is as before.
pub fn apply(alloc: Global, change: Change, heap: &mut Heap) -> Result<bool, Memory>
    ensures room { IfOk result (λ room. room ≡ has_room change.objects heap.old) }
    ensures ok { OnOk result (heap.new ≡ changed change heap.old) }
    ensures err { OnErr result (heap.new ≡ heap.old) }
{
    let Change {
        replacement,
        objects,
    } = change;
    if !add_all(alloc, heap, objects)? {
        return Ok(false);
    }
    if let Some(replacement) = replacement {
        replace(heap, replacement);
    }
    Ok(true)
}

/// The objects at the places from one on and before another.
fn places(alloc: Global, first: u32, end: u32) -> Result<Seq<Value>, Memory>
    ensures { IfOk result (λ values. values ≡ places_from first (end - first)) }
{
    let mut values = Seq::new(alloc);
    for place in first..end {
        values.push(Value::Obj(ObjId(place)))?;
    }
    Ok(values)
}

/// Puts objects behind the others, and answers the values that they are, or None where there isn't
/// room for all.
pub fn add_values(
    alloc: Global,
    heap: &mut Heap,
    objects: Seq<NewObject>,
) -> Result<Option<Seq<Value>>, Memory>
    ensures values { IfOk result (λ values. values ≡ (if has_room objects heap.old
        then Some (places_from (length heap.old) (length objects)) else None)) }
    ensures ok { OnOk result (heap.new ≡ changed (added objects) heap.old) }
    ensures err { OnErr result (heap.new ≡ heap.old) }
{
    let first = heap.len();
    let mark = heap.mark();
    if !add_all(alloc, heap, objects)? {
        return Ok(None);
    }
    match places(alloc, first, heap.len()) {
        Ok(values) => Ok(Some(values)),
        Err(error) => {
            heap.back(mark);
            Err(error)
        }
    }
}
