//! Operations that put an item into a list, dictionary or set.

ghost use Rattle.std.specs.Prelude.{◌≡◌, slice_get, IfOk};
ghost use Rattle.pt_prims.specs.Updates.{as_entry, as_item, as_member, stored_in, update_of};

use pt_base::{Memory, ObjId};
use pt_content::{MethodName, Op, object_at};
use pt_heap::{Heap, Object, Value};
use pt_updates::{Keyed, Update, key_in};
use std::alloc::Global;

/// An item of a list of so many items, by its index from 0.
fn as_item(id: ObjId, count: usize, index: Value, value: Value) -> Option<(ObjId, Update)>
    ensures { result ≡ as_item id count index value }
{
    let Value::Int(number) = index else {
        return None;
    };
    let distance = number.unsigned_abs();
    if number < 0 {
        return None;
    }
    if distance < count as u128 {
        let place = distance as usize;
        return Some((id, Update::Item { place, value }));
    }
    None
}

/// An entry of a dictionary, if the key is one.
fn as_entry(
    alloc: Global,
    heap: &Heap,
    id: ObjId,
    first: Value,
    value: Value,
) -> Result<Option<(ObjId, Update)>, Memory>
    ensures { IfOk result (λ found. found ≡ as_entry heap.now id first value) }
{
    match key_in(alloc, heap, first)? {
        Keyed::Key(key) => Ok(Some((id, Update::Entry { key, first, value }))),
        Keyed::Refused(_) => Ok(None),
    }
}

/// An item of a set, if it may be one.
fn as_member(
    alloc: Global,
    heap: &Heap,
    id: ObjId,
    item: Value,
) -> Result<Option<(ObjId, Update)>, Memory>
    ensures { IfOk result (λ found. found ≡ as_member heap.now id item) }
{
    match key_in(alloc, heap, item)? {
        Keyed::Key(key) => Ok(Some((id, Update::Member { key, item }))),
        Keyed::Refused(_) => Ok(None),
    }
}

/// `a[b] = c`, by the object at a place.
fn stored_in(
    alloc: Global,
    heap: &Heap,
    id: ObjId,
    index: Value,
    value: Value,
) -> Result<Option<(ObjId, Update)>, Memory>
    ensures { IfOk result
        (λ found. found ≡ stored_in heap.now id index value (slice_get heap.now id.0)) }
{
    match object_at(heap, id) {
        Some(Object::List(items)) => Ok(as_item(id, items.len(), index, value)),
        Some(Object::Dict(_)) => as_entry(alloc, heap, id, index, value),
        _ => Ok(None),
    }
}

/// The update that an operation on these operands is, and the place of its object. None where it is
/// another one, and where what the update would be is refused.
pub fn update_of(
    alloc: Global,
    op: Op,
    args: &[Value],
    heap: &Heap,
) -> Result<Option<(ObjId, Update)>, Memory>
    ensures { IfOk result (λ found. found ≡ update_of op args.now heap.now) }
{
    match (op, args) {
        (Op::ListAdd, [Value::Obj(id), item]) => Ok(Some((*id, Update::Append(*item)))),
        (Op::CallMethod(MethodName::Append), [Value::Obj(id), item]) => {
            Ok(Some((*id, Update::Append(*item))))
        }
        (Op::SetItem, [value, Value::Obj(id), index]) => {
            stored_in(alloc, heap, *id, *index, *value)
        }
        (Op::DictAdd, [Value::Obj(id), key, value]) => as_entry(alloc, heap, *id, *key, *value),
        (Op::SetAdd, [Value::Obj(id), item]) => as_member(alloc, heap, *id, *item),
        (Op::CallMethod(MethodName::Add), [Value::Obj(id), item]) => {
            as_member(alloc, heap, *id, *item)
        }
        _ => Ok(None),
    }
}
