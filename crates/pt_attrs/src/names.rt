ghost use Rattle.std.specs.Prelude.{◌≡◌, slice_get, length, OnOk, OnErr, IsSome, IsTrue, Some, ◌↔◌};
ghost use Rattle.pt_heap.specs.Entries.{found, put, without};
ghost use Rattle.pt_heap.specs.declared.value.Value.TheVariants as values;
ghost use Rattle.pt_dicts.specs.Chain.{class_in};
ghost use Rattle.pt_dicts.specs.Keys.{name_codes};
ghost use Rattle.pt_attrs.specs.Store.{assigned, deleted, held, is_scripted, names_in, stored, unassigned, with_name, with_names, Changes, Holds, StaysSound, TakesAt};
ghost use Rattle.pt_heap.specs.Sound.{IsWithin};

use crate::NoAttr;
use pt_base::{Failure, Memory, ObjId};
use pt_dicts::{class_at, name_key, object_at};
use pt_heap::{Dict, DictErr, Heap, Key, Object, Value};
use std::alloc::Global;

/// What stands in an object's place while its names change.
const ABSENT: Object = Object::Generator(0);

/// Whether a class is a script's.
fn is_scripted(heap: &Heap, class: ObjId) -> bool
    ensures { result ≡ is_scripted (class_in (slice_get heap.now class.0)) }
{
    match class_at(heap, class) {
        Some(class) => class.scripted,
        None => false,
    }
}

/// Whether the object at a place holds names.
fn holds_names(heap: &Heap, id: ObjId) -> bool
    ensures { IsTrue result ↔ Holds heap.now (slice_get heap.now id.0) }
{
    match object_at(heap, id) {
        Some(Object::Class(class)) => class.scripted,
        Some(Object::Instance(x)) => is_scripted(heap, x.class),
        Some(Object::Error(x)) => is_scripted(heap, x.class),
        _ => false,
    }
}

/// Gives a name a value.
fn put(names: &mut Dict, key: Key, value: Value) -> Result<(), Memory>
    ensures ok { OnOk result (names.new ≡ put key values.None value names.old) }
    ensures err { OnErr result (names.new ≡ names.old) }
{
    match names.insert(key, Value::None, value) {
        Ok(_) => Ok(()),
        Err(DictErr::Length | DictErr::Memory) => Err(Memory),
    }
}

/// Gives a name of an object a value.
fn put_in(object: &mut Object, key: Key, value: Value) -> Result<(), Memory>
    ensures ok { OnOk result (object.new ≡ with_name object.old key value) }
    ensures err { OnErr result (object.new ≡ object.old) }
{
    match object {
        Object::Class(class) => put(&mut class.names, key, value),
        Object::Instance(x) => put(&mut x.names, key, value),
        Object::Error(x) => put(&mut x.names, key, value),
        _ => Ok(()),
    }
}

/// Takes a name of an object away, and answers whether it had it.
fn take_from(object: &mut Object, key: &Key) -> bool
    ensures had { IsTrue result ↔ IsSome (found key.now (names_in object.old)) }
    ensures left { object.new ≡ with_names object.old (without key.now (names_in object.old)) }
{
    match object {
        Object::Class(class) => class.names.remove(key).is_some(),
        Object::Instance(x) => x.names.remove(key).is_some(),
        Object::Error(x) => x.names.remove(key).is_some(),
        _ => false,
    }
}

/// Gives a name of the object at a place a value.
fn put_at(heap: &mut Heap, id: ObjId, key: Key, value: Value) -> Result<(), Memory>
    requires { Holds heap.old (slice_get heap.old id.0) }
    ensures ok { OnOk result (stored heap.old (values.Obj id) key value ≡ Some heap.new) }
    ensures err { OnErr result (heap.new ≡ heap.old) }
    ensures sound { IsWithin heap.old value → StaysSound heap.old heap.new }
{
    let mut object = heap.set(id, ABSENT);
    let result = put_in(&mut object, key, value);
    let _ = heap.set(id, object);
    result
}

/// Takes a name of the object at a place away, and answers whether it had it.
fn take_at(heap: &mut Heap, id: ObjId, key: &Key) -> bool
    requires { Holds heap.old (slice_get heap.old id.0) }
    ensures names { TakesAt heap.old heap.new id key.now result }
    ensures sound { StaysSound heap.old heap.new }
{
    let mut object = heap.set(id, ABSENT);
    let had = take_from(&mut object, key);
    let _ = heap.set(id, object);
    had
}

/// Gives a name of a value a value (Language Reference 7.2). NoAttr for a value that holds no
/// names: a script's classes and the instances of these hold some. A sound heap stays sound.
pub fn store(
    alloc: Global,
    heap: &mut Heap,
    to: Value,
    name: &str,
    value: Value,
) -> Result<(), Failure<NoAttr>>
    ensures change { Changes heap.old heap.new result (assigned heap.old to name.now value) }
    ensures sound { IsWithin heap.old value → StaysSound heap.old heap.new }
{
    let Value::Obj(id) = to else {
        return Err(Failure::Refused(NoAttr));
    };
    if !holds_names(heap, id) {
        return Err(Failure::Refused(NoAttr));
    }
    let key = name_key(alloc, name)?;
    Ok(put_at(heap, id, key, value)?)
}

/// Takes a name of a value away (Language Reference 7.5). NoAttr where the value doesn't hold it. A
/// sound heap stays sound.
pub fn delete(
    alloc: Global,
    heap: &mut Heap,
    from: Value,
    name: &str,
) -> Result<(), Failure<NoAttr>>
    ensures change { Changes heap.old heap.new result (unassigned heap.old from name.now) }
    ensures sound { StaysSound heap.old heap.new }
{
    let Value::Obj(id) = from else {
        return Err(Failure::Refused(NoAttr));
    };
    if !holds_names(heap, id) {
        return Err(Failure::Refused(NoAttr));
    }
    let key = name_key(alloc, name)?;
    if take_at(heap, id, &key) {
        return Ok(());
    }
    Err(Failure::Refused(NoAttr))
}
