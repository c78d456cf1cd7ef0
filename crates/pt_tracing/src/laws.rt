//! The law of trace functions, the contract of a function that does nothing.
ghost use Rattle.pt_heap.specs.declared.value.Value.{Value};
ghost use Rattle.sem_run.specs.run.Machine.{Machine};
ghost use Rattle.pt_run_state.specs.pt_purposes.sem_rows.pt_host.World.{Program};
ghost use Rattle.pt_run_state.specs.pt_purposes.Openers.{Ways};
ghost use Rattle.pt_tracing.specs.Laws.{AnswersAsRun, FailsAsRun};

/// What a trace function answers is kept for the frame in which it was called, and for no other; and
/// one that raises is unset: so in each run for which the machine stands.
pub fn trace_functions_do_as_in_a_run<S>()
    ensures answers { (program : Program) (machine : Machine S Value) (ways : Ways S)
        → AnswersAsRun program machine ways }
    ensures fails { (program : Program) (machine : Machine S Value) (ways : Ways S)
        → FailsAsRun program machine ways }
{}
