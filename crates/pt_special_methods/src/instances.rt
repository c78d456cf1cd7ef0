//! Special methods of instances.

ghost use Rattle.std.specs.Prelude.{◌≡◌, IfOk};
ghost use Rattle.std.specs.Option.{option_copied};
ghost use Rattle.pt_content.specs.pt_attrs.Look.{object_of};
ghost use Rattle.pt_content.specs.Operands.{text_of};
ghost use Rattle.pt_special_methods.specs.Instances.{bound_to, class_asked, get_name, get_name_by};
ghost use Rattle.pt_special_methods.specs.Instances.{has_name, has_name_by, holds_instance};
ghost use Rattle.pt_special_methods.specs.Instances.{is_error, method_in, method_of};

use pt_base::{Memory, ObjId, What};
use pt_content::{
    Content, Found, NewObject, Operand, class_attribute, object_of, operand_of, text_of,
};
use pt_heap::{Heap, Method, Object, Value};
use pt_reprs::{is_container, needs_help};
use std::alloc::Global;

/// The class whose names are asked of a value.
fn class_asked(heap: &Heap, value: Value) -> Option<ObjId>
    ensures { result ≡ class_asked (object_of heap.now value) }
{
    match object_of(heap, value) {
        Some(Object::Instance(x)) => Some(x.class),
        Some(Object::Error(x)) => Some(x.class),
        _ => None,
    }
}

fn method_in(
    alloc: Global,
    heap: &Heap,
    class: Option<ObjId>,
    name: &str,
) -> Result<Option<Found>, Memory>
    ensures { IfOk result (λ found. found ≡ method_in heap.now name.now class) }
{
    match class {
        Some(class) => class_attribute(alloc, heap, class, name),
        None => Ok(None),
    }
}

/// The method of a name that an instance of a script's class has, from its class or the bases of
/// that. Another value has none.
pub fn method_of(
    alloc: Global,
    heap: &Heap,
    value: Value,
    name: &str,
) -> Result<Option<Found>, Memory>
    ensures { IfOk result (λ found. found ≡ method_of heap.now value name.now) }
{
    match operand_of(heap, value) {
        Operand::Instance => method_in(alloc, heap, class_asked(heap, value), name),
        _ => Ok(None),
    }
}

fn has_name_by(alloc: Global, heap: &Heap, value: Value, name: Value) -> Result<Content, Memory>
    ensures { IfOk result (λ content.
        content ≡ has_name_by heap.now value (text_of heap.now name)) }
{
    let Some(name) = text_of(heap, name) else {
        return Ok(Content::Outside(What::Feature));
    };
    let found = method_of(alloc, heap, value, name.text().as_str())?;
    Ok(Content::Value(Value::Bool(found.is_some())))
}

/// Whether an instance has a special method.
pub fn has_name(alloc: Global, args: &[Value], heap: &Heap) -> Result<Content, Memory>
    ensures { IfOk result (λ content. content ≡ has_name args.now heap.now) }
{
    match args {
        [value, name] => has_name_by(alloc, heap, *value, *name),
        _ => Ok(Content::Outside(What::Feature)),
    }
}

fn bound_to(receiver: Value, found: Option<Found>) -> Content
    ensures { result ≡ bound_to receiver found }
{
    match found {
        Some(Found::Bound(function)) => {
            Content::New(NewObject::Method(Method { function, receiver }))
        }
        Some(Found::Plain(value)) => Content::Value(value),
        _ => Content::Outside(What::Feature),
    }
}

fn get_name_by(alloc: Global, heap: &Heap, value: Value, name: Value) -> Result<Content, Memory>
    ensures { IfOk result (λ content.
        content ≡ get_name_by heap.now value (text_of heap.now name)) }
{
    let Some(name) = text_of(heap, name) else {
        return Ok(Content::Outside(What::Feature));
    };
    let found = method_of(alloc, heap, value, name.text().as_str())?;
    Ok(bound_to(value, found))
}

/// A special method of an instance, bound to it.
pub fn get_name(alloc: Global, args: &[Value], heap: &Heap) -> Result<Content, Memory>
    ensures { IfOk result (λ content. content ≡ get_name args.now heap.now) }
{
    match args {
        [value, name] => get_name_by(alloc, heap, *value, *name),
        _ => Ok(Content::Outside(What::Feature)),
    }
}

/// Whether a value is an exception.
pub fn is_error(heap: &Heap, value: Value) -> bool
    ensures { result ≡ is_error (object_of heap.now value) }
{
    match object_of(heap, value) {
        Some(Object::Error(_)) => true,
        _ => false,
    }
}

/// Whether a value is a container, view or exception from which an instance of a script's class is
/// reached.
pub fn holds_instance(alloc: Global, heap: &Heap, value: Value) -> Result<bool, Memory>
    ensures { IfOk result (λ holds. holds ≡ holds_instance heap.now value) }
{
    match value {
        Value::Obj(id) if is_container(heap, id) => needs_help(alloc, heap, value),
        _ => Ok(false),
    }
}
