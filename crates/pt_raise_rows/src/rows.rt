//! The rows of instructions that raise, and of those that try handlers.
ghost use Rattle.std.specs.Prelude.{◌≡◌, List, IfOk, OnOk};
ghost use Rattle.pt_frames.specs.Slots.{active_in};
ghost use Rattle.pt_frames.specs.declared.slot.Slot.{Slot};
ghost use Rattle.pt_instr.specs.declared.Instr.TheVariants as instr;
ghost use Rattle.pt_moves.specs.Operands.{RowsHeap, RowsSlots};
ghost use Rattle.pt_raise_rows.specs.Matched.{exception_in, no_class};

use crate::matching::takes;
use crate::raising::raise_value;
use pt_base::{Memory, Text};
use pt_frames::{Slot, Slots};
use pt_heap::{Heap, Value};
use pt_moves::{ASSERTION_ERROR, Progress, TYPE_ERROR, take_one, take_two};
use std::alloc::Global;

/// Raises the value on top (Language Reference 7.8).
#[tactic(auto, using(crate::proofs::RowLemmas::raise_row, crate::proofs::RowLemmas::raise_lacks))]
pub fn raise(alloc: Global, slots: &mut Slots, heap: &mut Heap) -> Result<Progress, Memory>
    ensures row { IfOk result (λ p. RowsHeap instr.Raise slots.old heap.old p slots.new heap.new) }
    ensures active { OnOk result (active_in slots.new ≡ active_in slots.old) }
{
    match take_one(slots) {
        Some(value) => raise_value(alloc, heap, value, None),
        None => Ok(Progress::Lacks),
    }
}

/// Raises a value from the cause on top (Language Reference 7.8).
#[tactic(auto, using(crate::proofs::RowLemmas::raise_from_row, crate::proofs::RowLemmas::raise_from_lacks))]
pub fn raise_from(alloc: Global, slots: &mut Slots, heap: &mut Heap) -> Result<Progress, Memory>
    ensures row { IfOk result
        (λ p. RowsHeap instr.RaiseFrom slots.old heap.old p slots.new heap.new) }
    ensures active { OnOk result (active_in slots.new ≡ active_in slots.old) }
{
    match take_two(slots) {
        Some((value, cause)) => raise_value(alloc, heap, value, Some(cause)),
        None => Ok(Progress::Lacks),
    }
}

/// Raises once more the exception that is active (Language Reference 7.8).
#[tactic(auto, using(crate::proofs::RowLemmas::again_row))]
pub fn raise_again() -> Progress
    ensures { (slots : List Slot) → RowsSlots instr.RaiseAgain slots result slots }
{
    Progress::RaisesAgain
}

/// An assertion failed, perhaps with the message on top (Language Reference 7.3).
#[tactic(auto, using(crate::proofs::RowLemmas::failed_row, crate::proofs::RowLemmas::failed_saying_row, crate::proofs::RowLemmas::failed_lacks))]
pub fn assert_fail(has_message: bool, slots: &mut Slots) -> Progress
    ensures row { RowsSlots (instr.AssertFail has_message) slots.old result slots.new }
    ensures active { active_in slots.new ≡ active_in slots.old }
{
    if !has_message {
        return Progress::Fails {
            class: ASSERTION_ERROR,
            arg: None,
        };
    }
    match take_one(slots) {
        Some(message) => Progress::Fails {
            class: ASSERTION_ERROR,
            arg: Some(message),
        },
        None => Progress::Lacks,
    }
}

/// The exception that a slot holds, if it is there and holds one.
fn exception_in(slot: Option<Slot>) -> Option<Value>
    ensures { result ≡ exception_in slot }
{
    match slot {
        Some(Slot::Exc(exception)) => Some(exception),
        _ => None,
    }
}

/// A handler names what is no class of exceptions.
fn no_class(alloc: Global) -> Result<Progress, Memory>
    ensures { IfOk result (λ p. p ≡ no_class) }
{
    let text = Text::from_str(alloc, "bad argument")?;
    Ok(Progress::FailsSaying {
        class: TYPE_ERROR,
        text,
    })
}

/// Gives whether a handler takes the exception below the class on top (Language Reference 8.4.1).
#[tactic(auto, using(crate::proofs::RowLemmas::matched_row, crate::proofs::RowLemmas::mismatched_row, crate::proofs::RowLemmas::match_lacks_class, crate::proofs::RowLemmas::match_lacks, pt_moves::proofs::TakeLemmas::quiet_over))]
pub fn matches(alloc: Global, slots: &mut Slots, heap: &Heap) -> Result<Progress, Memory>
    ensures row { IfOk result
        (λ p. RowsHeap instr.Match slots.old heap.now p slots.new heap.now) }
    ensures active { OnOk result (active_in slots.new ≡ active_in slots.old) }
{
    let Some(class) = take_one(slots) else {
        return Ok(Progress::Lacks);
    };
    let Some(exception) = exception_in(slots.get(0)) else {
        return Ok(Progress::Lacks);
    };
    match takes(heap, exception, class) {
        Some(taken) => {
            slots.push(Slot::Value(Value::Bool(taken)))?;
            Ok(Progress::Next)
        }
        None => no_class(alloc),
    }
}
