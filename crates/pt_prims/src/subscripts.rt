ghost use Rattle.std.specs.Prelude.{◌≡◌, slice_get, IfOk};
ghost use Rattle.pt_content.specs.pt_attrs.Look.{object_of};
ghost use Rattle.pt_prims.specs.Subscripts.{add_to_dict, add_to_set, delete_in, delete_subscript};
ghost use Rattle.pt_prims.specs.Subscripts.{set_in, set_subscript, subscript};

use pt_base::{Memory, ObjId, What};
use pt_content::{Content, object_at, object_of};
use pt_heap::{Heap, Object, Value};
use pt_methods::{
    add_content, delete_item_content, delete_list_item, item_content, not_subscriptable,
    set_item_content, set_list_item, subscript_content,
};
use std::alloc::Global;

/// `a[b]` (Language Reference 6.3.2).
pub fn subscript(alloc: Global, heap: &Heap, a: Value, index: Value) -> Result<Content, Memory>
    ensures { IfOk result (λ content. content ≡ subscript heap.now a index) }
{
    match object_of(heap, a) {
        Some(Object::Dict(dict)) => item_content(alloc, heap, dict, index),
        _ => subscript_content(alloc, heap, a, index),
    }
}

fn set_in(
    alloc: Global,
    heap: &Heap,
    id: ObjId,
    index: Value,
    value: Value,
) -> Result<Content, Memory>
    ensures { IfOk result
        (λ content. content ≡ set_in heap.now id index value (slice_get heap.now id.0)) }
{
    match object_at(heap, id) {
        Some(Object::Dict(dict)) => { set_item_content(alloc, heap, id, dict, index, value) }
        Some(Object::List(_)) => { set_list_item(alloc, heap, value, Value::Obj(id), index) }
        _ => not_subscriptable(alloc, heap, Value::Obj(id)),
    }
}

/// `a[b] = c` (Language Reference 7.2).
pub fn set_subscript(
    alloc: Global,
    heap: &Heap,
    value: Value,
    a: Value,
    index: Value,
) -> Result<Content, Memory>
    ensures { IfOk result (λ content. content ≡ set_subscript heap.now value a index) }
{
    match a {
        Value::Obj(id) => set_in(alloc, heap, id, index, value),
        _ => not_subscriptable(alloc, heap, a),
    }
}

fn delete_in(alloc: Global, heap: &Heap, id: ObjId, index: Value) -> Result<Content, Memory>
    ensures { IfOk result
        (λ content. content ≡ delete_in heap.now id index (slice_get heap.now id.0)) }
{
    match object_at(heap, id) {
        Some(Object::Dict(dict)) => { delete_item_content(alloc, heap, id, dict, index) }
        Some(Object::List(_)) => { delete_list_item(alloc, heap, Value::Obj(id), index) }
        _ => not_subscriptable(alloc, heap, Value::Obj(id)),
    }
}

/// `del a[b]` (Language Reference 7.5).
pub fn delete_subscript(
    alloc: Global,
    heap: &Heap,
    a: Value,
    index: Value,
) -> Result<Content, Memory>
    ensures { IfOk result (λ content. content ≡ delete_subscript heap.now a index) }
{
    match a {
        Value::Obj(id) => delete_in(alloc, heap, id, index),
        _ => not_subscriptable(alloc, heap, a),
    }
}

/// An item of the set that a comprehension makes (Language Reference 6.2.4).
pub fn add_to_set(alloc: Global, heap: &Heap, made: Value, item: Value) -> Result<Content, Memory>
    ensures { IfOk result (λ content. content ≡ add_to_set heap.now made item) }
{
    let Value::Obj(id) = made else {
        return Ok(Content::Outside(What::Feature));
    };
    match object_at(heap, id) {
        Some(Object::Set(set)) => add_content(alloc, heap, id, set, item),
        _ => Ok(Content::Outside(What::Feature)),
    }
}

/// An entry of the dictionary that a comprehension makes (Language Reference 6.2.4).
pub fn add_to_dict(
    alloc: Global,
    heap: &Heap,
    made: Value,
    key: Value,
    value: Value,
) -> Result<Content, Memory>
    ensures { IfOk result (λ content. content ≡ add_to_dict heap.now made key value) }
{
    let Value::Obj(id) = made else {
        return Ok(Content::Outside(What::Feature));
    };
    match object_at(heap, id) {
        Some(Object::Dict(dict)) => set_item_content(alloc, heap, id, dict, key, value),
        _ => Ok(Content::Outside(What::Feature)),
    }
}
