//! Constants, and values that are dropped.
ghost use Rattle.std.specs.Prelude.{◌≡◌, IfOk, MatchOption};
ghost use Rattle.pt_fast_rows.specs.FastPaths.{FastConstant, FastReturn, FastRow, Leads};
ghost use Rattle.pt_instr.specs.declared.Instr.TheVariants as instr;

use crate::taking::take_value;
use pt_base::{Memory, Pc};
use pt_frames::{Slot, Slots};
use pt_heap::Value;

/// Gives the value of a constant (Language Reference 6.2.2).
pub fn fast_constant(value: Value, next: Pc, slots: &mut Slots) -> Result<Option<Pc>, Memory>
    ensures { IfOk result
        (λ o. Leads next o (λ p. FastConstant value p slots.old slots.new)
        (slots.new ≡ slots.old)) }
{
    slots.push(Slot::Value(value))?;
    Ok(Some(next))
}

/// Drops the value on top (Language Reference 7.1).
#[tactic(auto, using(crate::proofs::ValueLemmas::none_popped))]
pub fn fast_pop(next: Pc, slots: &mut Slots) -> Option<Pc>
    ensures { Leads next result (λ p. FastRow instr.Pop p slots.old slots.new)
        (slots.new ≡ slots.old) }
{
    match take_value(slots) {
        Some(_) => Some(next),
        None => None,
    }
}

/// Takes the value off that a `return` leaves its place with (Language Reference 7.6).
#[tactic(auto, using(crate::proofs::ValueLemmas::returned_one))]
pub fn fast_return(slots: &mut Slots) -> Option<Value>
    ensures { MatchOption result (slots.new ≡ slots.old)
        (λ v. FastReturn v slots.old slots.new) }
{
    take_value(slots)
}
