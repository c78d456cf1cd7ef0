//! Exceptions as objects of the heap.

ghost use Rattle.std.specs.Prelude.{◌≡◌, IfOk, OnOk, OnErr};
ghost use Rattle.pt_host.specs.Errors.{error, error_saying, object_place};
ghost use Rattle.pt_host.specs.World.{IsAllotted, allot};

use pt_base::{Memory, ObjId, Seq, Text};
use pt_heap::{Dict, Error, Heap, HeapErr, Object, Str, Value};
use std::alloc::Global;

/// The place of the object that a value is, if it is one.
fn object_place(value: Option<Value>) -> Option<ObjId>
    ensures { result ≡ object_place value }
{
    match value {
        Some(Value::Obj(id)) => Some(id),
        _ => None,
    }
}

/// An exception of a class with its arguments, which arises while another one may be active. Its
/// names are to go into this heap.
pub fn error(
    alloc: Global,
    heap: &Heap,
    class: ObjId,
    args: Seq<Value>,
    cause: Option<Value>,
    active: Option<Value>,
) -> Object
    ensures { result ≡ error class args cause active }
{
    Object::Error(Error {
        class,
        args,
        cause: object_place(cause),
        context: object_place(active),
        hides_context: cause.is_some(),
        trace: Seq::new(alloc),
        names: Dict::new(alloc, heap.seed()),
    })
}

/// Puts an object behind the others of a heap; None where it is full. After Memory the heap is as
/// before.
pub fn allot(heap: &mut Heap, object: Object) -> Result<Option<Value>, Memory>
    ensures ok { IfOk result (λ value. IsAllotted (allot object heap.old) value heap.new) }
    ensures err { OnErr result (heap.new ≡ heap.old) }
{
    match heap.add(object) {
        Ok(id) => Ok(Some(Value::Obj(id))),
        Err(HeapErr::HeapFull) => Ok(None),
        Err(HeapErr::Memory) => Err(Memory),
    }
}

/// Puts an exception with a text behind that text, both behind the others of a heap; None where
/// there is no room for both.
pub fn error_saying(
    alloc: Global,
    heap: &mut Heap,
    class: ObjId,
    text: Text,
    cause: Option<Value>,
    active: Option<Value>,
) -> Result<Option<Value>, Memory>
    ensures { IfOk result
        (λ value. IsAllotted (error_saying class text cause active heap.old) value heap.new) }
{
    match allot(heap, Object::Str(Str::new(text)))? {
        Some(value) => {
            let args = Seq::from_slice(alloc, &[value])?;
            let made = error(alloc, heap, class, args, cause, active);
            allot(heap, made)
        }
        None => Ok(None),
    }
}
