//! The law of who is asked, the contract of a function that does nothing.
ghost use Rattle.std.specs.Prelude.{Bool};
ghost use Rattle.pt_heap.specs.declared.value.Value.{Value};
ghost use Rattle.sem_run.specs.run.Host.{Host};
ghost use Rattle.sem_run.specs.run.Machine.{Machine};
ghost use Rattle.sem_run.specs.run.Outcome.{Question};
ghost use Rattle.pt_asking.specs.Laws.{AsksAsRun};

/// Those are asked whom a run asks in which the same trace functions and tools are kept (Library
/// Reference, `sys.settrace`, `sys.monitoring`).
pub fn those_are_asked_that_a_run_asks<S, N, W>()
    ensures { (machine : Machine S Value) (host : Host N Value W) (minds : Question Value → Bool)
        → AsksAsRun machine host minds }
{}
