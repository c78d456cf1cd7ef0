//! Attributes of values (Language Reference 6.3.1).
ghost use Rattle.std.specs.Prelude.{◌≡◌, IfOk, OnOk};
ghost use Rattle.std.specs.Option.{option_copied};
ghost use Rattle.pt_attribute_rows.specs.Attributes.{Gives, Places, RowsAttribute, RowsNamed, name_in};
ghost use Rattle.pt_frames.specs.Slots.{active_in};
ghost use Rattle.pt_instr.specs.declared.Instr.TheVariants.{DelAttr, SetAttr};
ghost use Rattle.sem_rows.specs.pt_host.Attributes.{arguments_in, method_object};

use pt_base::{Dup, Memory, Seq, Text, What};
use pt_content::{MethodName, object_of};
use pt_frames::{Slot, Slots};
use pt_function_rows::{Blocks, missing, put_attribute, take_attribute};
use pt_heap::{Builtin, Heap, Method, Object, Str, Value};
use pt_instr::TextNo;
use pt_operators::{take_one, take_two};
use pt_prims::{Attribute, attribute_of, method_number, receiver_of};
use sem_rows::allot;
use sem_rows::heap_rows::Progress;
use std::alloc::Global;

/// A method as an object, bound to the value that it is a method of.
fn method_object(method: MethodName, receiver: Value) -> Object
    ensures { result ≡ method_object method receiver }
{
    Object::Builtin(Builtin {
        number: method_number(method),
        receiver: Some(receiver),
    })
}

/// Gives a new object.
#[tactic(auto, using(crate::proofs::AttributeLemmas::placed, crate::proofs::AttributeLemmas::full, pt_moves::proofs::TakeLemmas::quiet_over))]
fn place(object: Object, slots: &mut Slots, heap: &mut Heap) -> Result<Progress, Memory>
    ensures answer { IfOk result
        (λ p. Places object slots.old heap.old p slots.new heap.new) }
    ensures active { OnOk result (active_in slots.new ≡ active_in slots.old) }
{
    match allot(heap, object)? {
        Some(value) => {
            slots.push(Slot::Value(value))?;
            Ok(Progress::Next)
        }
        None => Ok(Progress::Outside { what: What::Heap }),
    }
}

/// The name of a class, and that of a function's block (Language Reference 3.2.8.1, 3.2.10).
fn name_in(alloc: Global, blocks: &Blocks, object: Option<&Object>) -> Result<Text, Memory>
    ensures { IfOk result (λ name. name ≡ name_in blocks.now (option_copied object.entry)) }
{
    match object {
        Some(Object::Class(class)) => class.name.dup(alloc),
        Some(Object::Function(function)) => {
            blocks.get(function.block, function.hidden).name.dup(alloc)
        }
        _ => Ok(Text::new(alloc)),
    }
}

/// The arguments of an exception (Library Reference, "Built-in Exceptions").
fn arguments_in(alloc: Global, object: Option<&Object>) -> Result<Seq<Value>, Memory>
    ensures { IfOk result (λ args. args ≡ arguments_in (option_copied object.entry)) }
{
    match object {
        Some(Object::Error(error)) => Seq::from_slice(alloc, error.args.as_slice()),
        _ => Ok(Seq::new(alloc)),
    }
}

/// Gives an attribute of a value, by what it is.
#[tactic(auto, using(crate::proofs::AttributeLemmas::method_given, crate::proofs::AttributeLemmas::held_given, crate::proofs::AttributeLemmas::bound_given, crate::proofs::AttributeLemmas::name_given, crate::proofs::AttributeLemmas::arguments_given, crate::proofs::AttributeLemmas::missing_given, crate::proofs::AttributeLemmas::unbuilt_given, pt_moves::proofs::TakeLemmas::quiet_over))]
pub fn give(
    alloc: Global,
    attribute: Attribute,
    value: Value,
    name: &str,
    blocks: &Blocks,
    slots: &mut Slots,
    heap: &mut Heap,
) -> Result<Progress, Memory>
    ensures answer { IfOk result
        (λ p. Gives blocks.now name.now value attribute slots.old heap.old p slots.new heap.new) }
    ensures active { OnOk result (active_in slots.new ≡ active_in slots.old) }
{
    match attribute {
        Attribute::Method(method) => place(method_object(method, value), slots, heap),
        Attribute::Held(held) => {
            slots.push(Slot::Value(held))?;
            Ok(Progress::Next)
        }
        Attribute::Bound(function) => {
            let receiver = receiver_of(heap, value);
            place(Object::Method(Method { function, receiver }), slots, heap)
        }
        Attribute::NameOf => {
            let name = name_in(alloc, blocks, object_of(heap, value))?;
            place(Object::Str(Str::new(name)), slots, heap)
        }
        Attribute::Arguments => {
            let args = arguments_in(alloc, object_of(heap, value))?;
            place(Object::Tuple(args), slots, heap)
        }
        Attribute::Missing => missing(alloc, heap, value, name),
        Attribute::Unbuilt => Ok(Progress::Outside {
            what: What::Feature,
        }),
    }
}

/// Gives an attribute of a value, of the name that the operand names (Language Reference 6.3.1).
#[tactic(auto, using(crate::proofs::AttributeLemmas::attribute_row, crate::proofs::AttributeLemmas::attribute_lacks))]
pub fn attribute(
    alloc: Global,
    text: TextNo,
    name: &str,
    blocks: &Blocks,
    slots: &mut Slots,
    heap: &mut Heap,
) -> Result<Progress, Memory>
    ensures row { IfOk result
        (λ p. RowsAttribute blocks.now name.now text slots.old heap.old p slots.new heap.new) }
    ensures active { OnOk result (active_in slots.new ≡ active_in slots.old) }
{
    let Some(value) = take_one(slots) else {
        return Ok(Progress::Lacks);
    };
    let attribute = attribute_of(alloc, heap, value, name)?;
    give(alloc, attribute, value, name, blocks, slots, heap)
}

/// Sets the attribute of the value on top that the operand names (Language Reference 7.2).
#[tactic(auto, using(crate::proofs::AttributeLemmas::set_row, crate::proofs::AttributeLemmas::set_lacks))]
pub fn set_attribute(
    alloc: Global,
    text: TextNo,
    name: &str,
    slots: &mut Slots,
    heap: &mut Heap,
) -> Result<Progress, Memory>
    ensures row { IfOk result
        (λ p. RowsNamed name.now text (SetAttr text) slots.old heap.old p slots.new heap.new) }
    ensures active { OnOk result (active_in slots.new ≡ active_in slots.old) }
{
    match take_two(slots) {
        Some(pair) => put_attribute(alloc, heap, pair.1, name, pair.0),
        None => Ok(Progress::Lacks),
    }
}

/// Deletes the attribute of the value on top that the operand names (Language Reference 7.5).
#[tactic(auto, using(crate::proofs::AttributeLemmas::delete_row, crate::proofs::AttributeLemmas::delete_lacks))]
pub fn delete_attribute(
    alloc: Global,
    text: TextNo,
    name: &str,
    slots: &mut Slots,
    heap: &mut Heap,
) -> Result<Progress, Memory>
    ensures row { IfOk result
        (λ p. RowsNamed name.now text (DelAttr text) slots.old heap.old p slots.new heap.new) }
    ensures active { OnOk result (active_in slots.new ≡ active_in slots.old) }
{
    match take_one(slots) {
        Some(from) => take_attribute(alloc, heap, from, name),
        None => Ok(Progress::Lacks),
    }
}
