//! What values stand for where exceptions are asked for.

ghost use Rattle.std.specs.Prelude.{◌≡◌, slice_get};
ghost use Rattle.pt_host.specs.Leaving.{error_in, is_error_of, is_stop_in};
ghost use Rattle.pt_host.specs.Raising.{object_raisable, raisable};
ghost use Rattle.pt_host.specs.declared.places.TheConstants.{STOP_ITERATION as STOP};

use crate::places::{BASE_EXCEPTION, STOP_ITERATION};
use pt_base::ObjId;
use pt_dicts::object_at;
use pt_heap::{Heap, Object, Value};
use pt_prims::derives;

/// What a value is where an exception is asked for (Language Reference 7.8).
#[derive(Clone, Copy, Debug, PartialEq, Eq)]
pub enum Raisable {
    /// The exception at a place.
    Exception(ObjId),
    /// A class of exceptions, of which one is made: a builtin one or one of a script.
    Class { class: ObjId, scripted: bool },
    Neither,
}

fn object_raisable(heap: &Heap, id: ObjId) -> Raisable
    ensures { result ≡ object_raisable heap.now id (slice_get heap.now id.0) }
{
    match object_at(heap, id) {
        Some(Object::Error(_)) => Raisable::Exception(id),
        Some(Object::Class(class)) => {
            if derives(heap, BASE_EXCEPTION, id) {
                Raisable::Class {
                    class: id,
                    scripted: class.scripted,
                }
            } else {
                Raisable::Neither
            }
        }
        _ => Raisable::Neither,
    }
}

/// What a value is where an exception is asked for.
pub fn raisable_of(heap: &Heap, value: Value) -> Raisable
    ensures { result ≡ raisable heap.now value }
{
    match value {
        Value::Obj(id) => object_raisable(heap, id),
        Value::None | Value::Bool(_) | Value::Int(_) | Value::Ellipsis | Value::NotImplemented => {
            Raisable::Neither
        }
    }
}

fn is_stop_at(heap: &Heap, id: ObjId) -> bool
    ensures { result ≡ is_error_of heap.now STOP (error_in (slice_get heap.now id.0)) }
{
    match object_at(heap, id) {
        Some(Object::Error(error)) => derives(heap, STOP_ITERATION, error.class),
        _ => false,
    }
}

/// Whether a value is a StopIteration.
pub fn is_stop(heap: &Heap, value: Value) -> bool
    ensures { result ≡ is_stop_in heap.now value }
{
    match value {
        Value::Obj(id) => is_stop_at(heap, id),
        Value::None | Value::Bool(_) | Value::Int(_) | Value::Ellipsis | Value::NotImplemented => {
            false
        }
    }
}
