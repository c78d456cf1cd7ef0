ghost use Rattle.std.specs.Prelude.{◌≡◌, slice_get, IfOk};
ghost use Rattle.pt_methods.specs.Methods.{method_content, method_of, object_method};

use crate::lists::{list_method, tuple_method};
use pt_base::{Memory, ObjId, What};
use pt_comparisons::{dict_method_content, set_method_content};
use pt_content::{Content, MethodName, object_at};
use pt_fields::text_method_content;
use pt_heap::{Heap, Object, Value};
use std::alloc::Global;

/// A method of the object at a place.
fn object_method(
    alloc: Global,
    method: MethodName,
    heap: &Heap,
    id: ObjId,
    args: &[Value],
) -> Result<Content, Memory>
    ensures { IfOk result (λ content.
        content ≡ object_method method heap.now id args.now (slice_get heap.now id.0)) }
{
    match object_at(heap, id) {
        Some(Object::Str(text)) => text_method_content(alloc, method, heap, text.text(), args),
        Some(Object::List(items)) => {
            list_method(alloc, method, heap, Value::Obj(id), items.as_slice(), args)
        }
        Some(Object::Tuple(items)) => {
            tuple_method(alloc, method, heap, Value::Obj(id), items.as_slice(), args)
        }
        Some(Object::Dict(dict)) => dict_method_content(alloc, method, heap, id, dict, args),
        Some(Object::Set(set)) => set_method_content(alloc, method, heap, id, set, args),
        _ => Ok(Content::Outside(What::Feature)),
    }
}

fn method_of(
    alloc: Global,
    method: MethodName,
    heap: &Heap,
    receiver: Value,
    args: &[Value],
) -> Result<Content, Memory>
    ensures { IfOk result (λ content. content ≡ method_of method heap.now receiver args.now) }
{
    match receiver {
        Value::Obj(id) => object_method(alloc, method, heap, id, args),
        _ => Ok(Content::Outside(What::Feature)),
    }
}

/// A call of a method of a builtin value, of the value and then the arguments (Library Reference,
/// "Built-in Types"). Outside with the cause Feature for other arguments than the method has.
pub fn method_content(
    alloc: Global,
    method: MethodName,
    operands: &[Value],
    heap: &Heap,
) -> Result<Content, Memory>
    ensures { IfOk result (λ content. content ≡ method_content method operands.now heap.now) }
{
    match operands {
        [] => Ok(Content::Outside(What::Feature)),
        [receiver, args @ ..] => method_of(alloc, method, heap, *receiver, args),
    }
}
