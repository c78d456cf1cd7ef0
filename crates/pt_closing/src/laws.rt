//! The law of the end of the module, the contract of a function that does nothing.
ghost use Rattle.std.specs.Prelude.{ℕ, Bool};
ghost use Rattle.pt_heap.specs.declared.value.Value.{Value};
ghost use Rattle.sem_run.specs.run.Events.{Event};
ghost use Rattle.sem_run.specs.run.Machine.{Machine};
ghost use Rattle.pt_beginning.specs.pt_host.World.{Program};
ghost use Rattle.pt_beginning.specs.pt_purposes.Openers.{Ways};
ghost use Rattle.pt_closing.specs.Laws.{ModuleEndsAsRun};

/// With the module's block the run ends as the machine says, in each run for which it stands
/// (Language Reference 4.1; Library Reference, `sys.exit`).
pub fn modules_end_as_in_a_run<S>()
    ensures { (program : Program) (machine : Machine S Value) (ways : Ways S)
        (minds : Event Value → Bool) (n : ℕ) → ModuleEndsAsRun program machine ways minds n }
{}
