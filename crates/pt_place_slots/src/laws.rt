//! Laws of the tables of a block, each the contract of a function that does nothing.

ghost use Rattle.sem_fits.specs.fits.Block.{Block};
ghost use Rattle.pt_place_slots.specs.declared.tables.BlockSlots.{BlockSlots};
ghost use Rattle.pt_place_slots.specs.Laws.{AnswerJumps, NumbersTell};

use pt_common_slots::slots_in_common_have_one_number;

/// The number of a slot is the same at two places just where these have the slot in common.
pub fn numbers_tell_slots_in_common()
    ensures { (b : Block) (s : BlockSlots) → NumbersTell b s }
{
    slots_in_common_have_one_number();
}

/// The tables of a block tell of its slots what a jump asks.
#[tactic(auto, using(crate::proofs::Answering::answer_jumps))]
pub fn tables_answer_jumps()
    ensures { (b : Block) (s : BlockSlots) → AnswerJumps b s }
{}
