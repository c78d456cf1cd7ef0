//! Instructions that move slots and go to places, and ask for nothing.
ghost use Rattle.std.specs.Prelude.{◌≡◌, ◌∷◌, List, IfOk, OnOk};
ghost use Rattle.pt_frames.specs.Slots.{active_in};
ghost use Rattle.pt_frames.specs.declared.slot.Slot.{Slot};
ghost use Rattle.pt_frames.specs.declared.slot.Slot.TheVariants as slot;
ghost use Rattle.pt_instr.specs.declared.Instr.TheVariants as instr;
ghost use Rattle.pt_moves.specs.Operands.{RowsSlots};

use crate::taking::{take_movable, take_one, take_three, take_two};
use pt_base::{Memory, Pc};
use pt_frames::{Slot, Slots};
use pt_heap::{Completion, Value};
use sem_rows::heap_rows::Progress;

/// Does nothing.
#[tactic(auto, using(crate::proofs::MoveLemmas::nop_row))]
pub fn nop() -> Progress
    ensures { (slots : List Slot) → RowsSlots instr.Nop slots result slots }
{
    Progress::Next
}

/// Goes to a place (Language Reference 8.1, 8.2).
#[tactic(auto, using(crate::proofs::MoveLemmas::jump_row))]
pub fn jump(to: Pc) -> Progress
    ensures { (slots : List Slot) → RowsSlots (instr.Jump to) slots result slots }
{
    Progress::Goto { pc: to }
}

/// A `break` or a `continue` (Language Reference 7.9, 7.10).
#[tactic(auto, using(crate::proofs::MoveLemmas::leave_row))]
pub fn leave(to: Pc) -> Progress
    ensures { (slots : List Slot) → RowsSlots (instr.Leave to) slots result slots }
{
    Progress::Leaves {
        how: Completion::Leave { target: to },
    }
}

/// A `return` (Language Reference 7.6).
#[tactic(auto, using(crate::proofs::MoveLemmas::return_row, crate::proofs::MoveLemmas::return_lacks))]
pub fn return_value(slots: &mut Slots) -> Progress
    ensures row { RowsSlots instr.Return slots.old result slots.new }
    ensures active { active_in slots.new ≡ active_in slots.old }
{
    match take_one(slots) {
        Some(value) => Progress::Leaves {
            how: Completion::Return(value),
        },
        None => Progress::Lacks,
    }
}

/// Drops the value on top (Language Reference 7.1).
#[tactic(auto, using(crate::proofs::MoveLemmas::pop_row, crate::proofs::MoveLemmas::pop_lacks))]
pub fn pop(slots: &mut Slots) -> Progress
    ensures row { RowsSlots instr.Pop slots.old result slots.new }
    ensures active { active_in slots.new ≡ active_in slots.old }
{
    match take_one(slots) {
        Some(_) => Progress::Next,
        None => Progress::Lacks,
    }
}

fn push_two(slots: &mut Slots, lower: Value, upper: Value) -> Result<(), Memory>
    ensures { IfOk result (λ _. slots.new ≡ slot.Value upper ∷ (slot.Value lower ∷ slots.old)) }
{
    slots.push(Slot::Value(lower))?;
    slots.push(Slot::Value(upper))
}

/// The value on top comes twice (Language Reference 6.10, 7.2).
#[tactic(auto, using(crate::proofs::MoveLemmas::copy_row, crate::proofs::MoveLemmas::copy_lacks, crate::proofs::TakeLemmas::quiet_over))]
pub fn copy(slots: &mut Slots) -> Result<Progress, Memory>
    ensures row { IfOk result (λ p. RowsSlots instr.Copy slots.old p slots.new) }
    ensures active { OnOk result (active_in slots.new ≡ active_in slots.old) }
{
    match take_one(slots) {
        Some(value) => {
            push_two(slots, value, value)?;
            Ok(Progress::Next)
        }
        None => Ok(Progress::Lacks),
    }
}

/// The two values on top come twice (Language Reference 7.2.1).
#[tactic(auto, using(crate::proofs::MoveLemmas::copy_two_row, crate::proofs::MoveLemmas::copy_two_lacks, crate::proofs::TakeLemmas::quiet_over))]
pub fn copy_two(slots: &mut Slots) -> Result<Progress, Memory>
    ensures row { IfOk result (λ p. RowsSlots instr.Copy2 slots.old p slots.new) }
    ensures active { OnOk result (active_in slots.new ≡ active_in slots.old) }
{
    match take_two(slots) {
        Some((lower, upper)) => {
            push_two(slots, lower, upper)?;
            push_two(slots, lower, upper)?;
            Ok(Progress::Next)
        }
        None => Ok(Progress::Lacks),
    }
}

/// The value on top goes below the two under it.
#[tactic(auto, using(crate::proofs::MoveLemmas::rotate_row, crate::proofs::MoveLemmas::rotate_lacks, crate::proofs::TakeLemmas::quiet_over))]
pub fn rotate_three(slots: &mut Slots) -> Result<Progress, Memory>
    ensures row { IfOk result (λ p. RowsSlots instr.Rot3 slots.old p slots.new) }
    ensures active { OnOk result (active_in slots.new ≡ active_in slots.old) }
{
    match take_three(slots) {
        Some((first, (second, third))) => {
            slots.push(Slot::Value(third))?;
            push_two(slots, first, second)?;
            Ok(Progress::Next)
        }
        None => Ok(Progress::Lacks),
    }
}

/// The value on top goes below the value or the iterator under it.
#[tactic(auto, using(crate::proofs::MoveLemmas::swap_row, crate::proofs::MoveLemmas::swap_lacks, crate::proofs::MoveLemmas::swap_lacks_lower, crate::proofs::TakeLemmas::quiet_over, crate::proofs::TakeLemmas::quiet_movable))]
pub fn swap(slots: &mut Slots) -> Result<Progress, Memory>
    ensures row { IfOk result (λ p. RowsSlots instr.Swap slots.old p slots.new) }
    ensures active { OnOk result (active_in slots.new ≡ active_in slots.old) }
{
    let Some(upper) = take_one(slots) else {
        return Ok(Progress::Lacks);
    };
    let Some(lower) = take_movable(slots) else {
        return Ok(Progress::Lacks);
    };
    slots.push(Slot::Value(upper))?;
    slots.push(lower)?;
    Ok(Progress::Next)
}
