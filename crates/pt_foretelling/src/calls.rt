//! What is told of a call whose values lie in slots.
ghost use Rattle.std.specs.Prelude.{◌≡◌};
ghost use Rattle.pt_content.specs.pt_attrs.Look.{object_of};
ghost use Rattle.pt_host.specs.HeapHost.{is_builtin_object};
ghost use Rattle.sem_code.specs.slots.Instructions.{role_of};
ghost use Rattle.pt_foretelling.specs.Calls.{first_by, first_item, first_of, first_plain, or_missing, value_in};

use pt_base::Text;
use pt_content::object_of;
use pt_frames::{Slot, Slots};
use pt_heap::{Heap, Object, Value};
use pt_host::MISSING;

/// The value in a slot, None where another thing lies there.
pub fn value_in(slot: Option<Slot>) -> Value
    ensures { result ≡ value_in slot }
{
    match slot {
        Some(Slot::Value(value)) => value,
        _ => Value::None,
    }
}

/// Whether a builtin is called: no class of a script, and a function where it is hidden.
pub fn is_builtin(heap: &Heap, callee: Value) -> bool
    ensures { result ≡ is_builtin_object (object_of heap.now callee) }
{
    match object_of(heap, callee) {
        Some(Object::Builtin(_)) => true,
        Some(Object::Class(class)) => !class.scripted,
        Some(Object::Function(function)) => function.hidden,
        _ => false,
    }
}

/// The first item of a tuple, if it has one.
fn first_item(heap: &Heap, spread: Value) -> Option<Value>
    ensures { result ≡ first_item (object_of heap.now spread) }
{
    match object_of(heap, spread) {
        Some(Object::Tuple(items)) => match items.get(0) {
            Some(item) => Some(*item),
            None => None,
        },
        _ => None,
    }
}

/// The first positional argument among what an argument of this text passes.
#[tactic(auto, using(crate::proofs::Roles::by_position, crate::proofs::Roles::by_spread, crate::proofs::Roles::by_name))]
fn first_of(heap: &Heap, text: &Text, value: Value) -> Option<Value>
    ensures { result ≡ first_of heap.now (role_of text.now) value }
{
    if text.is_empty() {
        Some(value)
    } else if text.is("*") {
        first_item(heap, value)
    } else {
        None
    }
}

/// The first positional argument of so many in the uppermost slots, each passed as its text says.
#[tactic(auto, using(crate::proofs::Roles::first_found, crate::proofs::Roles::first_behind, crate::proofs::Roles::none_left, crate::proofs::Roles::no_more))]
pub fn first_by_roles(heap: &Heap, texts: &[Text], count: usize, slots: &Slots) -> Option<Value>
    ensures { result ≡ first_by heap.now texts.now count slots.now }
{
    let mut left = count;
    for text in texts {
        if left == 0 {
            return None;
        }
        left -= 1;
        if let Some(first) = first_of(heap, text, value_in(slots.get(left))) {
            return Some(first);
        }
    }
    None
}

/// The same where all but the last ones, so many, are passed by position.
pub fn first_plain(count: usize, named: usize, slots: &Slots) -> Option<Value>
    ensures { result ≡ first_plain count named slots.now }
{
    if named < count {
        Some(value_in(slots.get(count - 1)))
    } else {
        None
    }
}

/// MISSING stands for a first argument that there isn't.
pub fn or_missing(first: Option<Value>) -> Value
    ensures { result ≡ or_missing first }
{
    match first {
        Some(value) => value,
        None => Value::Obj(MISSING),
    }
}
