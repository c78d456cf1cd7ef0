ghost use Rattle.std.specs.Prelude.{◌≡◌, slice_get, IfOk};
ghost use Rattle.pt_dicts.specs.Keys.{name_codes};
ghost use Rattle.std.specs.Option.{option_copied};
ghost use Rattle.pt_dicts.specs.Chain.{class_value};
ghost use Rattle.pt_attrs.specs.Look.{above, as_found, as_method, from_base, is_function_object, looked_up, looked_up_above, object_found, object_of, own_or, super_found, value_found, Answers};

use crate::unbuilt::is_unbuilt;
use pt_base::{Failure, Memory, ObjId};
use pt_dicts::{class_at, class_value, name_key, object_at};
use pt_heap::{Heap, Key, Object, Value};
use std::alloc::Global;

/// What a name means on a value.
#[derive(Clone, Copy, Debug)]
pub enum Found {
    Plain(Value),
    /// A function of the value's class, which is called with the value before its arguments.
    Bound(Value),
    /// A run does not have it.
    Unbuilt,
}

/// The value has no such attribute.
#[derive(Clone, Copy, Debug)]
pub struct NoAttr;

/// The object that a value is.
pub fn object_of(heap: &Heap, value: Value) -> Option<&Object>
    ensures { option_copied result ≡ object_of heap.now value }
{
    match value {
        Value::Obj(id) => object_at(heap, id),
        _ => None,
    }
}

/// Whether a value is a function of a script or of the prelude.
fn is_function(heap: &Heap, value: Value) -> bool
    ensures { result ≡ is_function_object (object_of heap.now value) }
{
    match object_of(heap, value) {
        Some(Object::Function(_)) => true,
        _ => false,
    }
}

/// What a class gives its instances: a function as a method.
fn as_method(heap: &Heap, value: Option<Value>) -> Option<Found>
    ensures { result ≡ as_method heap.now value }
{
    match value {
        Some(value) if is_function(heap, value) => Some(Found::Bound(value)),
        Some(value) => Some(Found::Plain(value)),
        None => None,
    }
}

fn as_found(value: Option<Value>) -> Option<Found>
    ensures { result ≡ as_found value }
{
    match value {
        Some(value) => Some(Found::Plain(value)),
        None => None,
    }
}

/// A value's own name, else one of its class.
fn own_or(heap: &Heap, key: &Key, own: Option<Value>, class: ObjId) -> Option<Found>
    ensures { result ≡ own_or own (as_method heap.now (class_value heap.now key.now class)) }
{
    match own {
        Some(value) => Some(Found::Plain(value)),
        None => as_method(heap, class_value(heap, key, class)),
    }
}

/// What the bases of a class have.
fn super_found(heap: &Heap, key: &Key, class: ObjId) -> Option<Found>
    ensures { result ≡ super_found heap.now key.now class }
{
    let Some(class) = class_at(heap, class) else {
        return None;
    };
    match class.base {
        Some(base) => as_method(heap, class_value(heap, key, base)),
        None => None,
    }
}

/// What an object has under a key.
fn object_found(heap: &Heap, key: &Key, id: ObjId) -> Option<Found>
    ensures { result ≡ object_found heap.now key.now id (slice_get heap.now id.0) }
{
    match object_at(heap, id) {
        Some(Object::Class(_)) => as_found(class_value(heap, key, id)),
        Some(Object::Instance(x)) => own_or(heap, key, x.names.get(key), x.class),
        Some(Object::Error(x)) => own_or(heap, key, x.names.get(key), x.class),
        Some(Object::Super(x)) => super_found(heap, key, x.class),
        _ => None,
    }
}

/// What a value has under a key.
fn value_found(heap: &Heap, key: &Key, value: Value) -> Option<Found>
    ensures { result ≡ value_found heap.now key.now value }
{
    match value {
        Value::Obj(id) => object_found(heap, key, id),
        _ => None,
    }
}

/// What a name means on a value (Language Reference 6.3.1): a name that the value holds, else one
/// of its class and the bases of that, of which a function is bound; on what `super` gives, a name
/// of the bases. Names that a run does not have come first.
pub fn lookup(
    alloc: Global,
    heap: &Heap,
    value: Value,
    name: &str,
) -> Result<Found, Failure<NoAttr>>
    ensures { Answers result (looked_up heap.now value name.now) }
{
    if is_unbuilt(object_of(heap, value), name) {
        return Ok(Found::Unbuilt);
    }
    let key = name_key(alloc, name)?;
    match value_found(heap, &key, value) {
        Some(found) => Ok(found),
        None => Err(Failure::Refused(NoAttr)),
    }
}

/// What a name means in the bases of a class (Library Reference, `super`).
pub fn super_of(
    alloc: Global,
    heap: &Heap,
    class: ObjId,
    name: &str,
) -> Result<Found, Failure<NoAttr>>
    ensures { Answers result (looked_up_above heap.now class name.now) }
{
    if is_unbuilt(None, name) {
        return Ok(Found::Unbuilt);
    }
    let key = name_key(alloc, name)?;
    match super_found(heap, &key, class) {
        Some(found) => Ok(found),
        None => Err(Failure::Refused(NoAttr)),
    }
}

/// What a class and its bases give their instances under a name: a function as a method.
pub fn class_attribute(
    alloc: Global,
    heap: &Heap,
    class: ObjId,
    name: &str,
) -> Result<Option<Found>, Memory>
    ensures { IfOk result
        (λ found. found ≡ as_method heap.now (class_value heap.now (name_codes name.now) class)) }
{
    let key = name_key(alloc, name)?;
    Ok(as_method(heap, class_value(heap, &key, class)))
}
