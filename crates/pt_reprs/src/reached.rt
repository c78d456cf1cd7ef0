ghost use Rattle.std.specs.Prelude.{◌≡◌, true, false, IfOk, OnOk, length, nat_eq, slice_get};
ghost use Rattle.indexmap.specs.IndexSet.{IsUnique};
ghost use Rattle.pt_content.specs.Operands.{operand_of};
ghost use Rattle.pt_heap.specs.declared.value.Value.TheVariants as values;
ghost use Rattle.pt_reprs.specs.Marks.{has_instance, is_container, with_mark, Follows, MarksFirst};
ghost use Rattle.pt_reprs.specs.Reached.{is_instance, need_help, needs_help, parts_of};

use crate::dict_view::{shown, viewed};
use indexmap::IndexSet;
use pt_base::{Memory, ObjId};
use pt_content::{Operand, object_at, operand_of};
use pt_heap::{Heap, Object, Part, Seed, Value};
use std::alloc::Global;

fn is_instance(heap: &Heap, value: Value) -> bool
    ensures { result ≡ is_instance (operand_of heap.now value) }
{
    operand_of(heap, value) == Operand::Instance
}

/// Whether a list, tuple, dictionary, set, view or exception stands at a place.
pub fn is_container(heap: &Heap, id: ObjId) -> bool
    ensures { result ≡ is_container (slice_get heap.now id.0) }
{
    match object_at(heap, id) {
        Some(Object::List(_)) => true,
        Some(Object::Tuple(_)) => true,
        Some(Object::Dict(_)) => true,
        Some(Object::Set(_)) => true,
        Some(Object::View(_)) => true,
        Some(Object::Error(_)) => true,
        _ => false,
    }
}

/// Marks a container, view or exception by its place.
fn mark(heap: &Heap, marks: &mut IndexSet<u32, Seed>, value: Value) -> Result<(), Memory>
    ensures keys { OnOk result (marks.new.keys ≡ with_mark heap.now marks.old.keys value) }
    ensures unique { OnOk result (IsUnique nat_eq marks.old → IsUnique nat_eq marks.new) }
{
    if let Value::Obj(id) = value
        && is_container(heap, id)
    {
        marks.insert(id.0)?;
    }
    Ok(())
}

/// Marks the containers, views and exceptions of some values up to an instance of a script's class, and
/// answers whether there is one.
fn mark_all(heap: &Heap, marks: &mut IndexSet<u32, Seed>, values: &[Value]) -> Result<bool, Memory>
    ensures found { IfOk result (λ found. found ≡ has_instance heap.now values.now) }
    ensures marks { IfOk result (λ found. found ≡ false → MarksFirst heap.now
        marks.old.keys marks.new.keys values.now (length values.now)) }
    ensures unique { OnOk result (IsUnique nat_eq marks.old → IsUnique nat_eq marks.new) }
{
    for value in values {
        if is_instance(heap, *value) {
            return Ok(true);
        }
        mark(heap, marks, *value)?;
    }
    Ok(false)
}

/// Marks the containers, views and exceptions that stand in the one at a place.
fn mark_parts(
    alloc: Global,
    heap: &Heap,
    marks: &mut IndexSet<u32, Seed>,
    id: ObjId,
) -> Result<bool, Memory>
    ensures found { IfOk result (λ found. found
        ≡ has_instance heap.now (parts_of heap.now (values.Obj id))) }
    ensures marks { IfOk result (λ found. found ≡ false → MarksFirst heap.now
        marks.old.keys marks.new.keys (parts_of heap.now (values.Obj id))
        (length (parts_of heap.now (values.Obj id)))) }
    ensures unique { OnOk result (IsUnique nat_eq marks.old → IsUnique nat_eq marks.new) }
{
    match object_at(heap, id) {
        Some(Object::List(items)) => mark_all(heap, marks, items.as_slice()),
        Some(Object::Tuple(items)) => mark_all(heap, marks, items.as_slice()),
        Some(Object::Dict(dict)) => {
            let parts = shown(alloc, Part::Items, dict)?;
            mark_all(heap, marks, parts.as_slice())
        }
        Some(Object::Set(set)) => {
            let parts = shown(alloc, Part::Keys, set)?;
            mark_all(heap, marks, parts.as_slice())
        }
        Some(Object::View(view)) => {
            let parts = viewed(alloc, heap, *view)?;
            mark_all(heap, marks, parts.as_slice())
        }
        Some(Object::Error(error)) => mark_all(heap, marks, error.args.as_slice()),
        _ => mark_all(heap, marks, &[]),
    }
}

/// The place that was marked behind so many others.
fn marked(marks: &IndexSet<u32, Seed>, at: u32) -> Option<u32>
    ensures { result ≡ slice_get marks.now.keys at }
{
    marks.get_index(at as usize).copied()
}

/// Whether an instance of a script's class is reached from the container, view or exception at a
/// place.
/// Each that is reached is gone through once.
fn is_reached(alloc: Global, heap: &Heap, id: ObjId) -> Result<bool, Memory>
    requires plain { is_instance (operand_of heap.now (values.Obj id)) ≡ false }
    requires container { is_container (slice_get heap.now id.0) ≡ true }
    ensures { IfOk result (λ found. found ≡ needs_help heap.now (values.Obj id)) }
{
    let mut marks = IndexSet::with_hasher(alloc, heap.seed());
    marks.insert(id.0)?;
    for at in 0..heap.len() {
        let place = match marked(&marks, at) {
            Some(place) => place,
            None => return Ok(false),
        };
        if mark_parts(alloc, heap, &mut marks, ObjId(place))? {
            return Ok(true);
        }
    }
    Ok(false)
}

/// Whether an instance of a script's class is reached from an object that is none.
fn object_needs_help(alloc: Global, heap: &Heap, id: ObjId) -> Result<bool, Memory>
    requires { is_instance (operand_of heap.now (values.Obj id)) ≡ false }
    ensures { IfOk result (λ needs. needs ≡ needs_help heap.now (values.Obj id)) }
{
    if is_container(heap, id) {
        return is_reached(alloc, heap, id);
    }
    Ok(false)
}

/// Whether a value is an instance of a script's class, or a container, view or exception from which
/// one is reached, in time linear in what is reached.
pub fn needs_help(alloc: Global, heap: &Heap, value: Value) -> Result<bool, Memory>
    ensures { IfOk result (λ needs. needs ≡ needs_help heap.now value) }
{
    if is_instance(heap, value) {
        return Ok(true);
    }
    match value {
        Value::Obj(id) => object_needs_help(alloc, heap, id),
        Value::None | Value::Bool(_) | Value::Int(_) | Value::Ellipsis | Value::NotImplemented =>
            Ok(false),
    }
}

/// Whether one of some values needs help.
pub fn need_help(alloc: Global, heap: &Heap, values: &[Value]) -> Result<bool, Memory>
    ensures { IfOk result (λ need. need ≡ need_help heap.now values.now) }
{
    for value in values {
        if needs_help(alloc, heap, *value)? {
            return Ok(true);
        }
    }
    Ok(false)
}
