//! Laws of the answers to jumps, each the contract of a function that does nothing.

ghost use Rattle.sem_fits.specs.fits.Block.{Block};
ghost use Rattle.law_code_jumps.specs.jump_answers.Known.{SlotsKnown};
ghost use Rattle.law_code_jumps.specs.jump_answers.Laws.{AnswersBySlots, HasOneAnswer};

/// Where it is known how many slots lie at each place, which of them hold completions and which are
/// the same at two places, the answer to a jump by that is the one that is said of slots (Library
/// Reference, "inspect": `f_lineno`).
#[tactic(auto, using(crate::proofs::jump_answers::Answering::answers_by_slots))]
pub fn jumps_are_answered_by_slots()
    ensures { (b : Block) (k : SlotsKnown) → AnswersBySlots b k }
{}

/// In a block that fits a jump has no other answer.
#[tactic(auto, using(crate::proofs::jump_answers::OneAnswer::one_answer))]
pub fn jumps_have_one_answer()
    ensures { (b : Block) → HasOneAnswer b }
{}
