//! How a value is taken off the slots, if one is on top.
ghost use Rattle.std.specs.Prelude.{◌≡◌, Some, drop, MatchOption};
ghost use Rattle.pt_operators.specs.pt_moves.Operands.{one_value, value_in};

use pt_frames::{Slot, Slots};
use pt_heap::Value;

/// The value that a slot holds, if it holds one.
fn value_in(slot: Option<Slot>) -> Option<Value>
    ensures { result ≡ value_in slot }
{
    match slot {
        Some(Slot::Value(value)) => Some(value),
        _ => None,
    }
}

/// Takes the value on top off; where none is there, nothing changes.
#[tactic(auto, using(pt_moves::proofs::TakeLemmas::popped, crate::proofs::TakeLemmas::value_there))]
pub fn take_value(slots: &mut Slots) -> Option<Value>
    ensures { MatchOption result (slots.new ≡ slots.old)
        (λ v. (one_value slots.old ≡ Some v) × (slots.new ≡ drop 1 slots.old)) }
{
    match value_in(slots.get(0)) {
        Some(value) => {
            slots.pop();
            Some(value)
        }
        None => None,
    }
}
