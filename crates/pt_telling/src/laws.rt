//! Laws of telling and asking, each the contract of a function that does nothing.
ghost use Rattle.std.specs.Prelude.{ℕ, Bool};
ghost use Rattle.pt_heap.specs.declared.value.Value.{Value};
ghost use Rattle.sem_run.specs.run.Events.{Event};
ghost use Rattle.sem_run.specs.run.Machine.{Machine};
ghost use Rattle.pt_tracing.specs.pt_machine_state.pt_code_facts.sem_rows.pt_host.World.{Program};
ghost use Rattle.pt_tracing.specs.pt_purposes.Openers.{Ways};
ghost use Rattle.pt_telling.specs.Laws.{AsksAsRun, TellsAsRun};

/// What the machine tells, a run tells for which it stands: nothing is written, and an event is told
/// for both, or what waits goes on (Library Reference, `sys.settrace`, `sys.monitoring`).
pub fn telling_is_steps_of_a_run<S>()
    ensures { (program : Program) (machine : Machine S Value) (ways : Ways S)
        (minds : Event Value → Bool) (n : ℕ) → TellsAsRun program machine ways minds n }
{}

/// At an event both ask the same one, behind the event's lines for the log.
pub fn asking_is_steps_of_a_run<S>()
    ensures { (program : Program) (machine : Machine S Value) (ways : Ways S)
        (minds : Event Value → Bool) (n : ℕ) → AsksAsRun program machine ways minds n }
{}
