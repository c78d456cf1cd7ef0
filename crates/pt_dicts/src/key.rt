ghost use Rattle.std.specs.Prelude.{◌≡◌, ◌++◌, ◌∷◌, IfOk, OnOk};
ghost use Rattle.pt_dicts.specs.Codes.{bytes_codes, codes_of, object, number as number_key, AreShort};
ghost use Rattle.pt_dicts.specs.Keys.{coded, depth_limit, instance_key, key_at, key_value, tuple_key, Answers, Writes};
ghost use Rattle.pt_dicts.specs.declared.key.KeyErr.TheVariants.{Memory as out_of_memory};

use crate::chain::{class_value, object_at};
use crate::codes::{END, name_key, push_bytes, push_number};
use pt_base::{Memory, ObjId, Seq};
use pt_builtin_objects::{DICT_CLASS, LIST_CLASS, SET_CLASS};
use pt_heap::{Heap, Key, Object, Value};
use std::alloc::Global;

/// How many tuples may stand inside one another in a key.
const DEPTH_LIMIT: u32 = 1000;

/// Why a value is no key.
#[derive(Clone, Copy, Debug, PartialEq, Eq)]
pub enum KeyErr {
    /// A list, a set, a dictionary, or an instance whose class has `__eq__` and no `__hash__`.
    Unhashable { class: ObjId },
    /// An instance whose class has `__hash__`.
    UserHash { class: ObjId },
    /// More than 1,000 tuples stand inside one another.
    Deep,
    Memory,
}

impl From<Memory> for KeyErr {
    ghost from_gives = { λ _ e. e ≡ out_of_memory };

    fn from(_: Memory) -> Self {
        KeyErr::Memory
    }
}

/// Writes an object by its place.
fn push_place(alloc: Global, codes: &mut Seq<u8>, id: ObjId) -> Result<(), Memory>
    ensures ok { OnOk result (codes.new ≡ codes.old ++ codes_of (object id.0)) }
    ensures short { OnOk result (AreShort (object id.0)) }
{
    codes.push(6)?;
    push_number(alloc, codes, id.0 as i128)
}

/// Writes a number.
fn push_int(alloc: Global, codes: &mut Seq<u8>, number: i128) -> Result<(), Memory>
    ensures ok { OnOk result (codes.new ≡ codes.old ++ codes_of (number_key number)) }
    ensures short { OnOk result (AreShort (number_key number)) }
{
    codes.push(3)?;
    push_number(alloc, codes, number)
}

/// Writes a text.
fn push_text(codes: &mut Seq<u8>, text: &str) -> Result<(), Memory>
    ensures { OnOk result (codes.new ≡ codes.old ++ 4 ∷ bytes_codes text.now) }
{
    codes.push(4)?;
    push_bytes(codes, text.as_bytes())
}

/// Writes an instance of a class, if its class lets it be a key.
fn push_instance(
    alloc: Global,
    heap: &Heap,
    codes: &mut Seq<u8>,
    class: ObjId,
    id: ObjId,
) -> Result<(), KeyErr>
    ensures adds { Writes codes.old codes.new result (coded (instance_key heap.now class id)) }
    ensures short { OnOk result (IfOk (instance_key heap.now class id) AreShort) }
{
    let hash = name_key(alloc, "__hash__")?;
    if class_value(heap, &hash, class).is_some() {
        return Err(KeyErr::UserHash { class });
    }
    let eq = name_key(alloc, "__eq__")?;
    if class_value(heap, &eq, class).is_some() {
        return Err(KeyErr::Unhashable { class });
    }
    Ok(push_place(alloc, codes, id)?)
}

/// Writes a tuple, in which so many may stand inside one another, it among them.
#[cycle(keys)]
fn push_tuple(
    alloc: Global,
    heap: &Heap,
    codes: &mut Seq<u8>,
    items: &[Value],
    depth: u32,
) -> Result<(), KeyErr>
    ensures adds { Writes codes.old codes.new result (coded (tuple_key heap.now depth items.now)) }
    ensures short { OnOk result (IfOk (tuple_key heap.now depth items.now) AreShort) }
{
    if depth == 0 {
        return Err(KeyErr::Deep);
    }
    codes.push(5)?;
    for item in items {
        push_key(alloc, heap, codes, *item, depth - 1)?;
    }
    Ok(codes.push(END)?)
}

/// Writes an object, by value or by its place.
#[cycle(keys)]
fn push_object(
    alloc: Global,
    heap: &Heap,
    codes: &mut Seq<u8>,
    id: ObjId,
    depth: u32,
) -> Result<(), KeyErr>
    ensures adds { Writes codes.old codes.new result (coded (key_at heap.now depth id)) }
    ensures short { OnOk result (IfOk (key_at heap.now depth id) AreShort) }
{
    match object_at(heap, id) {
        Some(Object::Str(text)) => Ok(push_text(codes, text.text().as_str())?),
        Some(Object::Tuple(items)) => push_tuple(alloc, heap, codes, items.as_slice(), depth),
        Some(Object::List(_)) => Err(KeyErr::Unhashable { class: LIST_CLASS }),
        Some(Object::Set(_)) => Err(KeyErr::Unhashable { class: SET_CLASS }),
        Some(Object::Dict(_)) => Err(KeyErr::Unhashable { class: DICT_CLASS }),
        Some(Object::Instance(instance)) => push_instance(alloc, heap, codes, instance.class, id),
        Some(Object::Error(error)) => push_instance(alloc, heap, codes, error.class, id),
        _ => Ok(push_place(alloc, codes, id)?),
    }
}

/// Writes the key of a value.
#[cycle(keys)]
fn push_key(
    alloc: Global,
    heap: &Heap,
    codes: &mut Seq<u8>,
    value: Value,
    depth: u32,
) -> Result<(), KeyErr>
    ensures adds { Writes codes.old codes.new result (coded (key_value heap.now depth value)) }
    ensures short { OnOk result (IfOk (key_value heap.now depth value) AreShort) }
{
    match value {
        Value::None => Ok(codes.push(0)?),
        Value::Ellipsis => Ok(codes.push(1)?),
        Value::NotImplemented => Ok(codes.push(2)?),
        Value::Bool(truth) => Ok(push_int(alloc, codes, truth as i128)?),
        Value::Int(number) => Ok(push_int(alloc, codes, number)?),
        Value::Obj(id) => push_object(alloc, heap, codes, id, depth),
    }
}

/// A value as a key, which is the same for values that are equal as keys: None, numbers, texts and
/// tuples by value, all else by object (Language Reference 6.2.7). Refused are lists, sets,
/// dictionaries, instances whose class has `__hash__` or `__eq__`, tuples of what is refused, and
/// more than 1,000 tuples inside one another. Its numbers have at most 64 digits, so that
/// `a_key_is_of_one_value` speaks of it.
pub fn key_of(alloc: Global, heap: &Heap, value: Value) -> Result<Key, KeyErr>
    ensures key { Answers result (coded (key_value heap.now depth_limit value)) }
    ensures short { OnOk result (IfOk (key_value heap.now depth_limit value) AreShort) }
{
    let mut codes = Seq::new(alloc);
    push_key(alloc, heap, &mut codes, value, DEPTH_LIMIT)?;
    Ok(Key::new(codes))
}
