//! Classes and their instances as objects of the heap.

ghost use Rattle.std.specs.Prelude.{◌≡◌, [], slice_get, IfOk, OnOk};
ghost use Rattle.std.specs.Option.{option_copied};
ghost use Rattle.pt_content.specs.pt_attrs.Look.{object_of};
ghost use Rattle.pt_host.specs.Attributes.{is_error, is_fixed};
ghost use Rattle.pt_host.specs.Calls.{initializer, instance};
ghost use Rattle.pt_host.specs.Classes.{base_by, base_of, bound_entries, class_with};
ghost use Rattle.pt_host.specs.Variables.{is_left_out};
ghost use Rattle.pt_heap.specs.Entries.{put};
ghost use Rattle.pt_dicts.specs.Keys.{name_codes};
ghost use Rattle.pt_bind.specs.NameSets.{is_among};
ghost use Rattle.pt_tables.specs.Names.{special_names};

use crate::errors::error;
use crate::places::{BASE_EXCEPTION, OBJECT};
use pt_base::{Memory, ObjId, Seq, Text};
use pt_content::{Found, class_attribute, is_special, object_of};
use pt_dicts::{name_key, object_at};
use pt_heap::{Binding, Class, Dict, DictErr, Heap, Instance, Object, Value};
use pt_prims::derives;
use pt_tables::specials;
use std::alloc::Global;

/// What a class can be made on.
#[derive(Clone, Copy, Debug, PartialEq, Eq)]
pub enum Base {
    On(ObjId),
    /// A run doesn't make classes on it.
    Unavailable,
    /// It is no class.
    NoBase,
}

/// What an object is as the base of a class.
fn base_by(heap: &Heap, id: ObjId) -> Base
    ensures { result ≡ base_by heap.now id (slice_get heap.now id.0) }
{
    match object_at(heap, id) {
        Some(Object::Class(class)) => {
            if class.scripted || id.0 == OBJECT.0 || derives(heap, BASE_EXCEPTION, id) {
                Base::On(id)
            } else {
                Base::Unavailable
            }
        }
        Some(Object::Instance(_)) | Some(Object::Error(_)) | Some(Object::Slice(_)) => {
            Base::Unavailable
        }
        _ => Base::NoBase,
    }
}

/// What a value is as the base of a class (Language Reference 8.8). None stands for no base.
pub fn base_of(heap: &Heap, value: Value) -> Base
    ensures { result ≡ base_of heap.now value }
{
    match value {
        Value::None => Base::On(OBJECT),
        Value::Obj(id) => base_by(heap, id),
        Value::Bool(_) | Value::Int(_) | Value::Ellipsis | Value::NotImplemented => Base::NoBase,
    }
}

/// Gives a name of a class a value.
fn bind(alloc: Global, names: &mut Dict, name: &str, value: Value) -> Result<(), Memory>
    ensures { OnOk result (names.new ≡ put (name_codes name.now) Value.None value names.old) }
{
    let key = name_key(alloc, name)?;
    match names.insert(key, Value::None, value) {
        Ok(_) => Ok(()),
        Err(DictErr::Length | DictErr::Memory) => Err(Memory),
    }
}

/// A class of a script with these names. They are to go into this heap.
#[tactic(auto, using(crate::proofs::ClassLemmas::bound_next, crate::proofs::ClassLemmas::bound_end))]
pub fn class_object(
    alloc: Global,
    heap: &Heap,
    name: Text,
    base: ObjId,
    bound: &[Binding],
) -> Result<Object, Memory>
    ensures { IfOk result (λ o. o ≡ class_with name base (bound_entries [] bound.now)) }
{
    let mut names = Dict::new(alloc, heap.seed());
    for binding in bound {
        bind(alloc, &mut names, binding.name.as_str(), binding.value)?;
    }
    Ok(Object::Class(Class {
        name,
        base: Some(base),
        scripted: true,
        names,
    }))
}

/// An instance of a class, which may be an exception of these arguments. Its names are to go into
/// this heap.
pub fn instance(
    alloc: Global,
    heap: &Heap,
    is_exception: bool,
    class: ObjId,
    args: Seq<Value>,
) -> Object
    ensures { result ≡ instance is_exception class args }
{
    if is_exception {
        return error(alloc, heap, class, args, None, None);
    }
    Object::Instance(Instance {
        class,
        names: Dict::new(alloc, heap.seed()),
    })
}

/// What a class has its instances begin with (Language Reference 3.3.1).
pub fn initializer(alloc: Global, heap: &Heap, class: ObjId) -> Result<Option<Found>, Memory>
    ensures { IfOk result (λ found. found ≡ initializer heap.now class) }
{
    class_attribute(alloc, heap, class, "__init__")
}

/// Whether a name is one of a special method.
fn is_special_method(name: &str) -> bool
    ensures { result ≡ is_among special_names name.now }
{
    specials().get(name).is_some()
}

/// Whether a name stands between double underscores and is none of a special method (Language
/// Reference 3.3).
pub fn is_left_out(name: &str) -> bool
    ensures { result ≡ is_left_out name.now }
{
    is_special(name) && !is_special_method(name)
}

fn is_error(object: Option<&Object>) -> bool
    ensures { result ≡ is_error (option_copied object.entry) }
{
    match object {
        Some(Object::Error(_)) => true,
        _ => false,
    }
}

/// Whether a name means something by itself on a value that holds names.
pub fn is_fixed(heap: &Heap, value: Value, name: &str) -> bool
    ensures { result ≡ is_fixed (object_of heap.now value) name.now }
{
    is_left_out(name) || is_error(object_of(heap, value)) && name == "args"
}
