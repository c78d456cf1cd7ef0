//! How values are taken off the slots.
ghost use Rattle.std.specs.Prelude.{◌≡◌, drop, IfSome};
ghost use Rattle.pt_frames.specs.Slots.{active_in};
ghost use Rattle.pt_moves.specs.Operands.{movable_in, one_movable, one_value, three_values};
ghost use Rattle.pt_moves.specs.Operands.{two_values, value_in};

use pt_frames::{Slot, Slots};
use pt_heap::Value;

/// The value that a slot holds, if it is there and holds one.
fn value_in(slot: Option<Slot>) -> Option<Value>
    ensures { result ≡ value_in slot }
{
    match slot {
        Some(Slot::Value(value)) => Some(value),
        _ => None,
    }
}

/// The value on top, if one is there; it stays there.
#[tactic(auto, using(crate::proofs::TakeLemmas::first_one))]
pub fn top_value(slots: &Slots) -> Option<Value>
    ensures { result ≡ one_value slots.now }
{
    value_in(slots.get(0))
}

/// Takes a value off, or answers None where none is on top.
#[tactic(auto, using(crate::proofs::TakeLemmas::first_one, crate::proofs::TakeLemmas::popped, crate::proofs::TakeLemmas::quiet_one))]
pub fn take_one(slots: &mut Slots) -> Option<Value>
    ensures value { result ≡ one_value slots.old }
    ensures below { IfSome result (λ _. slots.new ≡ drop 1 slots.old) }
    ensures active { active_in slots.new ≡ active_in slots.old }
{
    match value_in(slots.get(0)) {
        Some(value) => {
            slots.pop();
            Some(value)
        }
        None => None,
    }
}

/// Takes two values off, of which the second was on top.
#[tactic(auto, using(crate::proofs::TakeLemmas::two_given, crate::proofs::TakeLemmas::upper_missing, crate::proofs::TakeLemmas::lower_missing, crate::proofs::TakeLemmas::two_off))]
pub fn take_two(slots: &mut Slots) -> Option<(Value, Value)>
    ensures values { result ≡ two_values slots.old }
    ensures below { IfSome result (λ _. slots.new ≡ drop 2 slots.old) }
    ensures active { active_in slots.new ≡ active_in slots.old }
{
    let upper = take_one(slots)?;
    let lower = take_one(slots)?;
    Some((lower, upper))
}

/// Takes three values off, of which the third was on top.
#[tactic(auto, using(crate::proofs::TakeLemmas::three_given, crate::proofs::TakeLemmas::two_missing, crate::proofs::TakeLemmas::lowest_missing, crate::proofs::TakeLemmas::three_off))]
pub fn take_three(slots: &mut Slots) -> Option<(Value, (Value, Value))>
    ensures values { result ≡ three_values slots.old }
    ensures below { IfSome result (λ _. slots.new ≡ drop 3 slots.old) }
    ensures active { active_in slots.new ≡ active_in slots.old }
{
    let upper_two = take_two(slots)?;
    let lowest = take_one(slots)?;
    Some((lowest, upper_two))
}

/// What a slot is, if it is there and holds a value or an iterator.
fn movable_in(slot: Option<Slot>) -> Option<Slot>
    ensures { result ≡ movable_in slot }
{
    match slot {
        Some(Slot::Value(value)) => Some(Slot::Value(value)),
        Some(Slot::Iter(iterator)) => Some(Slot::Iter(iterator)),
        _ => None,
    }
}

/// Takes a value or an iterator off, or answers None where neither is on top.
#[tactic(auto, using(crate::proofs::TakeLemmas::first_movable, crate::proofs::TakeLemmas::popped, crate::proofs::TakeLemmas::quiet_one_movable))]
pub fn take_movable(slots: &mut Slots) -> Option<Slot>
    ensures slot { result ≡ one_movable slots.old }
    ensures below { IfSome result (λ _. slots.new ≡ drop 1 slots.old) }
    ensures active { active_in slots.new ≡ active_in slots.old }
{
    match movable_in(slots.get(0)) {
        Some(slot) => {
            slots.pop();
            Some(slot)
        }
        None => None,
    }
}
