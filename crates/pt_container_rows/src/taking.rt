//! How an iterator is taken off the slots, and what stands further down.
ghost use Rattle.std.specs.Prelude.{◌≡◌, drop, IfSome};
ghost use Rattle.pt_container_rows.specs.Operands.{iterator_in, one_iterator, value_down};
ghost use Rattle.pt_frames.specs.Slots.{active_in};
ghost use Rattle.pt_block_calls.specs.pt_operators.pt_moves.Operands.{value_in};

use pt_frames::{Slot, Slots};
use pt_heap::Value;

/// The iterator that a slot holds, if it is there and holds one.
fn iterator_in(slot: Option<Slot>) -> Option<Value>
    ensures { result ≡ iterator_in slot }
{
    match slot {
        Some(Slot::Iter(iterator)) => Some(iterator),
        _ => None,
    }
}

/// Takes an iterator off, or answers None where none is on top.
#[tactic(auto, using(crate::proofs::TakeLemmas::first_iterator, crate::proofs::TakeLemmas::taken_off, crate::proofs::TakeLemmas::quiet_iterator))]
pub fn take_iterator(slots: &mut Slots) -> Option<Value>
    ensures iterator { result ≡ one_iterator slots.old }
    ensures below { IfSome result (λ _. slots.new ≡ drop 1 slots.old) }
    ensures active { active_in slots.new ≡ active_in slots.old }
{
    match iterator_in(slots.get(0)) {
        Some(iterator) => {
            slots.pop();
            Some(iterator)
        }
        None => None,
    }
}

/// The value that a slot holds, if it is there and holds one.
fn value_in(slot: Option<Slot>) -> Option<Value>
    ensures { result ≡ value_in slot }
{
    match slot {
        Some(Slot::Value(value)) => Some(value),
        _ => None,
    }
}

/// The value that stands so many slots down, of which the uppermost one is the first.
pub fn value_down(slots: &Slots, count: u32) -> Option<Value>
    ensures { result ≡ value_down count slots.now }
{
    if count == 0 {
        return None;
    }
    value_in(slots.get(count as usize - 1))
}
