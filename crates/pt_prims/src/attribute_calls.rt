//! Attributes that are asked for by a text.

ghost use Rattle.std.specs.Prelude.{◌≡◌, ◌≢◌, IfOk};
ghost use Rattle.pt_methods.specs.declared.attribute.Attribute.TheVariants.{Missing};
ghost use Rattle.std.specs.Option.{option_copied};
ghost use Rattle.pt_content.specs.Operands.{text_of};
ghost use Rattle.pt_prims.specs.AttributeCalls.{attribute_error, bound_method, call_getattr};
ghost use Rattle.pt_prims.specs.AttributeCalls.{arguments_by, get_attribute, get_attribute_or, gotten};
ghost use Rattle.pt_prims.specs.AttributeCalls.{has, has_attribute, method_by, name_by};

use pt_base::{Dup, Memory, ObjId, Seq, What};
use pt_content::{
    Content, MethodName, NewObject, TYPE_ERROR, bad_argument, class_name, object_of, sentence,
    text_of,
};
use pt_heap::{Builtin, Heap, Method, Object, Str, Value};
use pt_methods::{
    Attribute, attribute_of, method_number, new_text, receiver_of, truth_value, tuple_content,
};
use std::alloc::Global;

/// The place of the class of exceptions of a missing attribute.
pub const ATTRIBUTE_ERROR: ObjId = ObjId(33);

fn has(attribute: Attribute) -> Content
    ensures { result ≡ has attribute }
{
    match attribute {
        Attribute::Method(_)
        | Attribute::Held(_)
        | Attribute::Bound(_)
        | Attribute::NameOf
        | Attribute::Arguments => truth_value(true),
        Attribute::Missing => truth_value(false),
        Attribute::Unbuilt => Content::Outside(What::Feature),
    }
}

/// `hasattr`
pub(crate) fn has_attribute(
    alloc: Global,
    heap: &Heap,
    value: Value,
    name: Option<&Str>,
) -> Result<Content, Memory>
    ensures { IfOk result
        (λ content. content ≡ has_attribute heap.now value (option_copied name.entry)) }
{
    match name {
        Some(name) => Ok(has(attribute_of(alloc, heap, value, name.text().as_str())?)),
        None => bad_argument(alloc, TYPE_ERROR),
    }
}

/// A value has no attribute of this name.
fn attribute_error(alloc: Global, heap: &Heap, value: Value, name: &str) -> Result<Content, Memory>
    ensures { IfOk result (λ content. content ≡ attribute_error heap.now value name.now) }
{
    let behind = "' object has no attribute '";
    let text = sentence(alloc, &["'", class_name(heap, value), behind, name, "'"])?;
    Ok(Content::Raise {
        class: ATTRIBUTE_ERROR,
        text,
    })
}

/// A method of a builtin value, bound to it.
fn bound_method(method: MethodName, receiver: Value) -> Content
    ensures { result ≡ bound_method method receiver }
{
    Content::New(NewObject::Builtin(Builtin {
        number: method_number(method),
        receiver: Some(receiver),
    }))
}

/// A function of a value's class, bound as its method.
fn method_by(function: Value, receiver: Value) -> Content
    ensures { result ≡ method_by function receiver }
{
    Content::New(NewObject::Method(Method { function, receiver }))
}

/// The name of a class. That of a function isn't known here.
fn name_by(alloc: Global, object: Option<&Object>) -> Result<Content, Memory>
    ensures { IfOk result (λ content. content ≡ name_by (option_copied object.entry)) }
{
    match object {
        Some(Object::Class(class)) => Ok(new_text(class.name.dup(alloc)?)),
        _ => Ok(Content::Outside(What::Feature)),
    }
}

fn arguments_by(alloc: Global, object: Option<&Object>) -> Result<Content, Memory>
    ensures { IfOk result (λ content. content ≡ arguments_by (option_copied object.entry)) }
{
    match object {
        Some(Object::Error(error)) => {
            Ok(tuple_content(Seq::from_slice(alloc, error.args.as_slice())?))
        }
        _ => Ok(Content::Outside(What::Feature)),
    }
}

/// An attribute that a value has.
fn gotten(alloc: Global, heap: &Heap, value: Value, attribute: Attribute) -> Result<Content, Memory>
    requires { attribute ≢ Missing }
    ensures { IfOk result
        (λ content. (otherwise : _) → content ≡ gotten heap.now value attribute otherwise) }
{
    match attribute {
        Attribute::Held(held) => Ok(Content::Value(held)),
        Attribute::Bound(function) => Ok(method_by(function, receiver_of(heap, value))),
        Attribute::NameOf => name_by(alloc, object_of(heap, value)),
        Attribute::Arguments => arguments_by(alloc, object_of(heap, value)),
        Attribute::Method(method) => Ok(bound_method(method, value)),
        Attribute::Missing | Attribute::Unbuilt => Ok(Content::Outside(What::Feature)),
    }
}

fn get_attribute(
    alloc: Global,
    heap: &Heap,
    value: Value,
    name: Option<&Str>,
) -> Result<Content, Memory>
    ensures { IfOk result
        (λ content. content ≡ get_attribute heap.now value (option_copied name.entry)) }
{
    let Some(name) = name else {
        return bad_argument(alloc, TYPE_ERROR);
    };
    let name = name.text().as_str();
    match attribute_of(alloc, heap, value, name)? {
        Attribute::Missing => attribute_error(alloc, heap, value, name),
        found => gotten(alloc, heap, value, found),
    }
}

/// The attribute of a value, or another value where it has none.
fn get_attribute_or(
    alloc: Global,
    heap: &Heap,
    value: Value,
    name: Option<&Str>,
    default: Value,
) -> Result<Content, Memory>
    ensures { IfOk result (λ content.
        content ≡ get_attribute_or heap.now value (option_copied name.entry) default) }
{
    let Some(name) = name else {
        return bad_argument(alloc, TYPE_ERROR);
    };
    match attribute_of(alloc, heap, value, name.text().as_str())? {
        Attribute::Missing => Ok(Content::Value(default)),
        found => gotten(alloc, heap, value, found),
    }
}

/// `getattr`, with a default or without.
pub(crate) fn call_getattr(alloc: Global, args: &[Value], heap: &Heap) -> Result<Content, Memory>
    ensures { IfOk result (λ content. content ≡ call_getattr args.now heap.now) }
{
    match args {
        [value, name] => get_attribute(alloc, heap, *value, text_of(heap, *name)),
        [value, name, default] => {
            get_attribute_or(alloc, heap, *value, text_of(heap, *name), *default)
        }
        _ => Ok(Content::Outside(What::Feature)),
    }
}
