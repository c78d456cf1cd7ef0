//! Laws of code that fits, each the contract of a function that does nothing.

ghost use Rattle.sem_code.specs.slots.CodeObject.{CodeObject};
ghost use Rattle.sem_fits.specs.fits.Block.{Block};
ghost use Rattle.sem_fits.specs.fits.Laws.{FitsUnrefused, JumpsLand, NeverStuck, OneRefusal, SlotsFit, ViewIsLaid};
ghost use Rattle.sem_fits.specs.fits.Rows.{FewBeforeKind, FirstFits, FirstIsFile, FirstIsSeen, HandlerBeforeFew, HandlerIsNowhere, HandlerIsTooDeep, HeldLeaveLacks, JumpGoesAstray, KindBeforeTarget, LengthsBeforeHandler, LoopIsSilent, ValueIsNoCompletion};

/// From slots that have the kinds of a place, each turn finds all that it takes, and leaves slots
/// that have the kinds of the place to which it goes.
#[tactic(auto, using(crate::proofs::fits::SlotLaw::slots_fit))]
pub fn slots_have_the_kinds_of_their_place<V>()
    ensures { (code : CodeObject V) (b : Block) → SlotsFit code b }
{}

/// Behind a jump that is permitted the slots have the kinds of its target.
#[tactic(auto, using(crate::proofs::fits::JumpLaw::jumps_land))]
pub fn jumps_land_on_slots_of_their_target<V>()
    ensures { (b : Block) → JumpsLand V b }
{}

/// Code that fits is never stuck: no state to which the machine comes from the start of a block,
/// whatever is answered to its asks, whatever is raised and wherever a debugger jumps, lacks what
/// its instruction takes.
#[tactic(auto, using(crate::proofs::fits::NeverStuck::never_stuck))]
pub fn code_that_fits_is_never_stuck<V>()
    ensures { (code : CodeObject V) (b : Block) → NeverStuck code b }
{}

/// What is answered to samples, which are computed from the kinds of their places: the first is a
/// file, and its block fits; each other one is refused where it is said.
#[tactic(auto, using(crate::proofs::fits::RowProofs::samples))]
pub fn samples_fit_or_are_refused()
    ensures file { FirstIsFile }
    ensures view { FirstIsSeen }
    ensures fits { FirstFits }
    ensures value { ValueIsNoCompletion }
    ensures silent { LoopIsSilent }
    ensures astray { JumpGoesAstray }
    ensures held { HeldLeaveLacks }
    ensures nowhere { HandlerIsNowhere }
    ensures deep { HandlerIsTooDeep }
{}

/// Of two refusals at one place the first in their order is told.
#[tactic(auto, using(crate::proofs::fits::RowProofs::orders))]
pub fn refusals_are_told_in_order()
    ensures lengths { LengthsBeforeHandler }
    ensures handler { HandlerBeforeFew }
    ensures few { FewBeforeKind }
    ensures kind { KindBeforeTarget }
{}

/// Code that fits isn't refused, and what is refused is so for one reason at one place.
#[tactic(auto, using(crate::proofs::fits::OneAnswer::fits_isnt_refused, crate::proofs::fits::OneAnswer::one_refusal_at_most))]
pub fn a_block_has_one_answer()
    ensures fits { (b : Block) → FitsUnrefused b }
    ensures refusal { (b : Block) → OneRefusal b }
{}

/// A block of a code file is laid within its bytes, whatever stands in it.
pub fn a_block_is_laid_in_its_bytes()
    ensures { ViewIsLaid }
{}
