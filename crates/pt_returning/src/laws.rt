//! The law of results, the contract of a function that does nothing.
ghost use Rattle.std.specs.Prelude.{ℕ, Bool};
ghost use Rattle.pt_heap.specs.declared.value.Value.{Value};
ghost use Rattle.sem_run.specs.run.Events.{Event};
ghost use Rattle.sem_run.specs.run.Machine.{Machine};
ghost use Rattle.pt_opening.specs.pt_host.World.{Program};
ghost use Rattle.pt_opening.specs.pt_purposes.Openers.{Ways};
ghost use Rattle.pt_returning.specs.Laws.{ReturnsAsRun};

/// The result of a block goes to the ask or to the hook that waits for it, behind the steps that are
/// done on it, in the machine as in each run for which it stands (Language Reference 4.1, 6.3.4;
/// Library Reference, `sys.settrace`).
pub fn results_go_on_as_in_a_run<S>()
    ensures { (program : Program) (machine : Machine S Value) (ways : Ways S)
        (minds : Event Value → Bool) (n : ℕ) → ReturnsAsRun program machine ways minds n }
{}
