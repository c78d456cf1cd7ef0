//! Laws of code that goes ahead, each the contract of a function that does nothing.

ghost use Rattle.std.specs.Prelude.{ℕ};
ghost use Rattle.sem_code.specs.slots.CodeObject.{CodeObject};
ghost use Rattle.sem_code.specs.silent_turns.Laws.{ComesToRest};

/// Code that goes ahead wherever no act begins, but for jumps back to where an act is near, comes
/// to rest from each state, whatever its slots hold: within so many turns nothing is left to be
/// passed before an act or the end.
#[tactic(auto, using(crate::proofs::silent_turns::Rest::comes_to_rest))]
pub fn code_that_goes_ahead_comes_to_rest<V>()
    ensures { (code : CodeObject V) (size : ℕ) → ComesToRest code size }
{}
