//! Tests of truth values (Language Reference 8.1, 8.2).
ghost use Rattle.std.specs.Prelude.{◌≡◌, Some, drop, MatchOption};
ghost use Rattle.pt_fast_rows.specs.FastPaths.{FastRow, Leads, truth_in};
ghost use Rattle.pt_heap.specs.declared.value.Value.TheVariants as value;
ghost use Rattle.pt_instr.specs.declared.Instr.TheVariants as instr;
ghost use Rattle.pt_operators.specs.pt_moves.Operands.{one_value};

use pt_base::Pc;
use pt_frames::{Slot, Slots};
use pt_heap::Value;

/// The truth value that a slot holds, if it holds one.
fn truth_in(slot: Option<Slot>) -> Option<bool>
    ensures { result ≡ truth_in slot }
{
    match slot {
        Some(Slot::Value(Value::Bool(truth))) => Some(truth),
        _ => None,
    }
}

/// Takes the truth value on top off, if one is there.
#[tactic(auto, using(pt_moves::proofs::TakeLemmas::popped, crate::proofs::BranchLemmas::one_there))]
fn take_truth(slots: &mut Slots) -> Option<bool>
    ensures { MatchOption result (slots.new ≡ slots.old)
        (λ truth. (one_value slots.old ≡ Some (value.Bool truth))
        × (slots.new ≡ drop 1 slots.old)) }
{
    match truth_in(slots.get(0)) {
        Some(truth) => {
            slots.pop();
            Some(truth)
        }
        None => None,
    }
}

/// Goes to a place where the value on top is True (Language Reference 6.11, 8.1).
#[tactic(auto, using(crate::proofs::BranchLemmas::no_truth))]
pub fn fast_jump_if(to: Pc, next: Pc, slots: &mut Slots) -> Option<Pc>
    ensures { Leads next result (λ p. FastRow (instr.JumpIf to) p slots.old slots.new)
        (slots.new ≡ slots.old) }
{
    match take_truth(slots) {
        Some(true) => Some(to),
        Some(false) => Some(next),
        None => None,
    }
}

/// Goes to a place where the value on top is False (Language Reference 6.11, 8.1, 8.2).
#[tactic(auto, using(crate::proofs::BranchLemmas::no_truth))]
pub fn fast_jump_unless(to: Pc, next: Pc, slots: &mut Slots) -> Option<Pc>
    ensures { Leads next result (λ p. FastRow (instr.JumpUnless to) p slots.old slots.new)
        (slots.new ≡ slots.old) }
{
    match take_truth(slots) {
        Some(true) => Some(next),
        Some(false) => Some(to),
        None => None,
    }
}
