//! Laws of the states to which control and code both come, each the contract of a function that
//! does nothing.

ghost use Rattle.std.specs.Prelude.{◌≡◌, ℕ, Bool, true};
ghost use Rattle.sem_control.specs.control.Jump.{Shape};
ghost use Rattle.sem_fits.specs.fits.Block.{Block};
ghost use Rattle.sem_run.specs.run.Machine.{BlockId};
ghost use Rattle.sem_run.specs.run.Source.{Source};
ghost use Rattle.law_code_runs.specs.code_run.CodeMachine.{CodeSource};
ghost use Rattle.law_jumps.specs.reached_acts.Laws.{ActsAreAtKinds, ActsAreSaid, ReachedAreSound};

/// Where control and code have come to an act, also behind jumps of a debugger, the act begins at
/// the place of code, and what a test tells of each act of the block in the nest that the tree gives
/// it, it tells of this one in control's nest. (A clause can't speak of all predicates, as the lemma
/// does.)
pub fn acts_of_code_are_in_their_nests<V>()
    ensures { (source : Source V) (code : CodeSource V) (b : BlockId) (says : Shape → ℕ → Bool)
        → ActsAreSaid source code b (λ s n. says s n ≡ true) }
{}

/// Where a block fits, its jumps are those said of slots and its acts lie in its closed parts, runs
/// come to slots that have the kinds of their places, also behind jumps of a debugger, so that each
/// place where an act begins gets kinds.
pub fn runs_come_to_slots_of_their_places<V>()
    ensures sound { (source : Source V) (code : CodeSource V) (b : BlockId) (block : Block)
        → ReachedAreSound source code b block }
    ensures at_acts { (source : Source V) (code : CodeSource V) (b : BlockId) (block : Block)
        → ActsAreAtKinds source code b block }
{}
