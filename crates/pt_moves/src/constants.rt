//! Constants.
ghost use Rattle.std.specs.Prelude.{◌≡◌, IfOk, OnOk};
ghost use Rattle.pt_frames.specs.Slots.{active_in};
ghost use Rattle.pt_moves.specs.Operands.{RowsConstant};

use pt_base::Memory;
use pt_frames::{Slot, Slots};
use pt_heap::Value;
use sem_rows::heap_rows::Progress;

/// Gives the value of a constant (Language Reference 6.2.2).
#[tactic(auto, using(crate::proofs::ConstantLemmas::constant_row, crate::proofs::TakeLemmas::quiet_over))]
pub fn constant(value: Value, slots: &mut Slots) -> Result<Progress, Memory>
    ensures row { IfOk result (λ p. RowsConstant value slots.old p slots.new) }
    ensures active { OnOk result (active_in slots.new ≡ active_in slots.old) }
{
    slots.push(Slot::Value(value))?;
    Ok(Progress::Next)
}
