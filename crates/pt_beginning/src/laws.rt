//! The law of acts that begin, the contract of a function that does nothing.
ghost use Rattle.std.specs.Prelude.{ℕ, Bool};
ghost use Rattle.pt_heap.specs.declared.value.Value.{Value};
ghost use Rattle.sem_run.specs.run.Events.{Event};
ghost use Rattle.sem_run.specs.run.Machine.{Machine};
ghost use Rattle.pt_turning.specs.pt_telling.pt_run_state.pt_purposes.sem_rows.pt_host.World.{Program};
ghost use Rattle.pt_turning.specs.pt_telling.pt_run_state.pt_purposes.Openers.{Ways};
ghost use Rattle.pt_beginning.specs.Laws.{BeginsAsRun, EndsWithoutUnits, StandByPlace};

/// An act begins in the machine as in each run for which it stands, over any machine of code in which
/// place and slots tell where activations stand; and where all units are taken, the run ends.
pub fn acts_begin_as_in_a_run<S>()
    ensures begins { (program : Program) (machine : Machine S Value) (ways : Ways S)
        (minds : Event Value → Bool) (n : ℕ) → StandByPlace program machine ways minds n
        → BeginsAsRun program machine ways minds n }
    ensures spent { (program : Program) (machine : Machine S Value) (ways : Ways S)
        (minds : Event Value → Bool) (n : ℕ) → EndsWithoutUnits program machine ways minds n }
{}
