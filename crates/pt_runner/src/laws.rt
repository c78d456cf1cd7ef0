//! The law of the work of a run, the contract of a function that does nothing.

ghost use Rattle.std.specs.Prelude.{ℕ};
ghost use Rattle.sem_run.specs.run.Host.{Host};
ghost use Rattle.sem_run.specs.run.Machine.{BlockId, Machine};
ghost use Rattle.pt_runner.specs.Work.{DoesOneWork};
ghost use Rattle.sem_code.specs.slots.Slots.{State};

/// A run of code that comes to an outcome does one work.
#[tactic(auto, using(crate::proofs::GoesTo::does_one_work))]
pub fn a_run_of_code_does_one_work<V, N, W>()
    ensures { (machine : Machine (State V) V) (host : Host N V W) (n : ℕ) (block : BlockId)
        (names : N) (world : W) → DoesOneWork machine host n block names world }
{}
