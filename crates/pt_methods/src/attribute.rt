ghost use Rattle.std.specs.Prelude.{◌≡◌, map, IfOk};
ghost use Rattle.std.specs.Option.{option_copied};
ghost use Rattle.pt_content.specs.pt_attrs.Look.{object_of};
ghost use Rattle.pt_content.specs.pt_attrs.Unbuilt.{is_listed};
ghost use Rattle.pt_methods.specs.Attributes.{attribute_of, held_attribute, is_for_class, is_later};
ghost use Rattle.pt_methods.specs.Attributes.{object_or_none, own_attribute, receiver_of};
ghost use Rattle.pt_methods.specs.Names.{listed};

use crate::names::listed;
use pt_attrs::{Found, lookup, object_of};
use pt_base::{Failure, Memory, ObjId};
use pt_content::MethodName;
use pt_heap::{Heap, Module, Object, Value};
use std::alloc::Global;

/// What an attribute of a value is.
#[derive(Clone, Copy, Debug, PartialEq, Eq)]
pub enum Attribute {
    /// A method of builtin values, which is bound to the value.
    Method(MethodName),
    /// A value that the object or its class holds.
    Held(Value),
    /// A function of the value's class, which is bound as its method.
    Bound(Value),
    /// The name of the function or class, as a text.
    NameOf,
    /// The arguments of the exception, as a tuple.
    Arguments,
    /// The value has no such attribute.
    Missing,
    /// A run does not have it.
    Unbuilt,
}

/// The place of `sys.exit`.
pub const EXIT: ObjId = ObjId(64);

/// Whether a name is one of some.
fn is_listed(name: &str, names: &[&str]) -> bool
    ensures { result ≡ is_listed name.now (map (λ n. n.now) names.now) }
{
    for listed in names {
        if *listed == name {
            return true;
        }
    }
    false
}

/// Whether a run doesn't have this attribute of an object yet.
fn is_later(name: &str, object: Option<&Object>) -> bool
    ensures { result ≡ is_later name.now (option_copied object.entry) }
{
    match object {
        Some(Object::Function(_)) => name == "__code__",
        Some(Object::Generator(_)) => {
            is_listed(name, &["send", "throw", "close", "__next__", "__iter__"])
        }
        Some(Object::Frame(_)) => true,
        Some(Object::CodeRef { .. }) => true,
        Some(Object::Module(Module::Sys)) => {
            is_listed(name, &["settrace", "gettrace", "_getframe", "monitoring"])
        }
        Some(Object::Module(_)) => true,
        _ => false,
    }
}

fn object_or_none(id: Option<ObjId>) -> Value
    ensures { result ≡ object_or_none id }
{
    match id {
        Some(id) => Value::Obj(id),
        None => Value::None,
    }
}

/// The name of a function or a class (Language Reference 3.2.8.1, 3.2.10), and what an exception (Library Reference,
/// "Built-in Exceptions") or a module (`sys`) holds.
fn held_attribute(name: &str, object: Option<&Object>) -> Attribute
    ensures { result ≡ held_attribute name.now (option_copied object.entry) }
{
    match object {
        Some(Object::Error(error)) if name == "__cause__" => {
            Attribute::Held(object_or_none(error.cause))
        }
        Some(Object::Error(error)) if name == "__context__" => {
            Attribute::Held(object_or_none(error.context))
        }
        Some(Object::Error(_)) if name == "args" => Attribute::Arguments,
        Some(Object::Function(function)) if name == "__name__" && !function.hidden => {
            Attribute::NameOf
        }
        Some(Object::Class(_)) if name == "__name__" => Attribute::NameOf,
        Some(Object::Module(Module::Sys)) if name == "exit" => Attribute::Held(Value::Obj(EXIT)),
        _ => Attribute::Missing,
    }
}

/// An attribute that neither the value nor its class holds.
fn own_attribute(name: &str, object: Option<&Object>) -> Attribute
    ensures { result ≡ own_attribute name.now (option_copied object.entry)
        (listed name.now (option_copied object.entry)) }
{
    match listed(name, object) {
        Some(method) => Attribute::Method(method),
        None if is_later(name, object) => Attribute::Unbuilt,
        None => held_attribute(name, object),
    }
}

/// Whether what `super` gives is for a class in place of an instance of one.
fn is_for_class(heap: &Heap, object: Option<&Object>) -> bool
    ensures { result ≡ is_for_class heap.now (option_copied object.entry) }
{
    match object {
        Some(Object::Super(found)) => match object_of(heap, found.receiver) {
            Some(Object::Class(_)) => true,
            _ => false,
        },
        _ => false,
    }
}

/// What a function is bound to that is a method of a value (Language Reference 3.2.8.2): the value, or the instance
/// that `super` is for.
pub fn receiver_of(heap: &Heap, value: Value) -> Value
    ensures { result ≡ receiver_of heap.now value }
{
    match object_of(heap, value) {
        Some(Object::Super(found)) => found.receiver,
        _ => value,
    }
}

/// `a.name` (Language Reference 6.3.1): what the value holds, or its class and the bases of that; else a method of
/// builtin values, or what a function, a class, an exception or a module has. What a run doesn't have is unbuilt.
pub fn attribute_of(
    alloc: Global,
    heap: &Heap,
    value: Value,
    name: &str,
) -> Result<Attribute, Memory>
    ensures { IfOk result (λ attribute. attribute ≡ attribute_of heap.now value name.now) }
{
    match lookup(alloc, heap, value, name) {
        Ok(Found::Plain(held)) => Ok(Attribute::Held(held)),
        Ok(Found::Bound(function)) if is_for_class(heap, object_of(heap, value)) => {
            Ok(Attribute::Held(function))
        }
        Ok(Found::Bound(function)) => Ok(Attribute::Bound(function)),
        Ok(Found::Unbuilt) => Ok(Attribute::Unbuilt),
        Err(Failure::Refused(_)) => Ok(own_attribute(name, object_of(heap, value))),
        Err(Failure::Memory) => Err(Memory),
    }
}
