//! Laws of bare runs, each the contract of a function that does nothing.

ghost use Rattle.std.specs.Prelude.{ℕ};
ghost use Rattle.sem_run.specs.run.Host.{Host};
ghost use Rattle.sem_run.specs.run.Machine.{BlockId, Machine};
ghost use Rattle.pt_bare_runs.specs.Laws.{Among, BareRunsAreRuns, GivesNothingOn, HasOneOutcome, NeverStuck, OpensOnly, RunsAreAlike, Standing};

/// Where a bare run comes to an outcome, so does the run in which nobody is asked and nothing is
/// traced: with the same writes, the same number of acts and the same ending. It has no other
/// outcome.
#[tactic(auto, using(crate::proofs::BareRuns::bare_runs_are_runs, crate::proofs::BareRuns::runs_are_alike))]
pub fn a_bare_run_is_a_run<S, N, V, W>()
    ensures run { (machine : Machine S V) (host : Host N V W) (n : ℕ) (block : BlockId)
        (names : N) (world : W) → BareRunsAreRuns machine host n block names world }
    ensures each { (machine : Machine S V) (host : Host N V W) (n : ℕ) (block : BlockId)
        (names : N) (world : W) → RunsAreAlike machine host n block names world }
{}

/// Under a bound on acts a bare run has at most one outcome.
#[tactic(auto, using(crate::proofs::BareRuns::bare_runs_once))]
pub fn a_bare_run_has_one_outcome<S, N, V, W>()
    ensures { (machine : Machine S V) (host : Host N V W) (n : ℕ) (block : BlockId) (names : N)
        (world : W) → HasOneOutcome machine host n block names world }
{}

/// A bare run is never stuck, where it begins and goes on among states of the machine from which no
/// value is given on, each of which has a turn, and the host requests nothing but that blocks run.
#[tactic(auto, using(crate::proofs::NeverStuck::never_stuck))]
pub fn a_bare_run_is_never_stuck<S, N, V, W, P>()
    ensures { (machine : Machine S V) (host : Host N V W) (n : ℕ) (states : P → Standing S)
        → GivesNothingOn machine (Among states) → OpensOnly host
        → (block : BlockId) (names : N) (world : W) → NeverStuck machine host n block names world }
{}
