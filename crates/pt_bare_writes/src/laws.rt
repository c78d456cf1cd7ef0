//! The law of what is written first, the contract of a function that does nothing.

ghost use Rattle.std.specs.Prelude.{ℕ};
ghost use Rattle.sem_run.specs.run.Host.{Host};
ghost use Rattle.sem_run.specs.run.Machine.{BlockId, Machine};
ghost use Rattle.pt_bare_writes.specs.Fronts.{OutcomesBeginSo, RunWritesItFirst};

/// What a bare run writes first the run in which nobody is asked writes first.
pub fn a_front_of_a_bare_run_is_one_of_the_run<S, N, V, W>()
    ensures { (machine : Machine S V) (host : Host N V W) (n : ℕ) (block : BlockId) (names : N)
        (world : W) → RunWritesItFirst machine host n block names world }
{}

/// Where a bare run comes to an outcome, all that it writes begins with what it writes first.
#[tactic(auto, using(crate::proofs::FrontLemmas::outcomes_begin_so))]
pub fn an_outcome_begins_with_what_is_written_first<S, N, V, W>()
    ensures { (machine : Machine S V) (host : Host N V W) (n : ℕ) (block : BlockId) (names : N)
        (world : W) → OutcomesBeginSo machine host n block names world }
{}
