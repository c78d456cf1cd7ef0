ghost use Rattle.std.specs.Prelude.{◌≡◌, slice_get};
ghost use Rattle.std.specs.Option.{option_copied};
ghost use Rattle.pt_attrs.specs.Store.{is_scripted};
ghost use Rattle.pt_attrs.specs.pt_dicts.Chain.{class_in};
ghost use Rattle.pt_content.specs.Operands.{instance_operand, object_operand, operand_of, text_in, text_of};

use pt_attrs::{class_at, object_at};
use pt_base::ObjId;
use pt_heap::{Heap, Object, Str, Value};

/// What an operator sees in an operand.
#[derive(Clone, Copy, Debug, PartialEq, Eq)]
pub enum Operand {
    /// An integer, or a truth value as 0 or 1.
    Number(i128),
    Text,
    /// An instance of a script's class, whose methods are asked.
    Instance,
    /// What holds other values, a range or a slice.
    Compound,
    /// What only is itself.
    Plain,
}

/// Whether a class is a script's.
fn is_scripted(heap: &Heap, class: ObjId) -> bool
    ensures { result ≡ is_scripted (class_in (slice_get heap.now class.0)) }
{
    match class_at(heap, class) {
        Some(class) => class.scripted,
        None => false,
    }
}

/// What an instance of a class is.
fn instance_operand(heap: &Heap, class: ObjId, otherwise: Operand) -> Operand
    ensures { result ≡ instance_operand heap.now class otherwise }
{
    if is_scripted(heap, class) {
        Operand::Instance
    } else {
        otherwise
    }
}

fn object_operand(heap: &Heap, id: ObjId) -> Operand
    ensures { result ≡ object_operand heap.now (slice_get heap.now id.0) }
{
    match object_at(heap, id) {
        Some(Object::Str(_)) => Operand::Text,
        Some(Object::List(_)) => Operand::Compound,
        Some(Object::Tuple(_)) => Operand::Compound,
        Some(Object::Dict(_)) => Operand::Compound,
        Some(Object::Set(_)) => Operand::Compound,
        Some(Object::Range(_)) => Operand::Compound,
        Some(Object::Slice(_)) => Operand::Compound,
        Some(Object::View(_)) => Operand::Compound,
        Some(Object::Error(x)) => instance_operand(heap, x.class, Operand::Compound),
        Some(Object::Instance(x)) => instance_operand(heap, x.class, Operand::Plain),
        _ => Operand::Plain,
    }
}

/// What an operator sees in a value.
pub fn operand_of(heap: &Heap, value: Value) -> Operand
    ensures { result ≡ operand_of heap.now value }
{
    match value {
        Value::Bool(truth) => Operand::Number(truth as i128),
        Value::Int(number) => Operand::Number(number),
        Value::Obj(id) => object_operand(heap, id),
        _ => Operand::Plain,
    }
}

/// The text that stands at a place.
pub fn text_at(heap: &Heap, id: ObjId) -> Option<&Str>
    ensures { option_copied result ≡ text_in (slice_get heap.now id.0) }
{
    match object_at(heap, id) {
        Some(Object::Str(text)) => Some(text),
        _ => None,
    }
}

/// The text that a value is.
pub fn text_of(heap: &Heap, value: Value) -> Option<&Str>
    ensures { option_copied result ≡ text_of heap.now value }
{
    match value {
        Value::Obj(id) => text_at(heap, id),
        _ => None,
    }
}
