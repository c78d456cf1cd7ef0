//! Laws of replies with a value, each the contract of a function that does nothing.
ghost use Rattle.std.specs.Prelude.{ℕ, Bool};
ghost use Rattle.pt_heap.specs.declared.value.Value.{Value};
ghost use Rattle.sem_code.specs.slots.Slots.{State};
ghost use Rattle.sem_code_machine.specs.code_machine.CodeBlocks.{CodeBlocks};
ghost use Rattle.sem_run.specs.run.Events.{Event};
ghost use Rattle.sem_run.specs.run.Machine.{Machine};
ghost use Rattle.pt_returning.specs.pt_host.World.{Program};
ghost use Rattle.pt_returning.specs.pt_purposes.Openers.{Ways};
ghost use Rattle.pt_returning.specs.pt_turning.Ways.{IsOfCode};
ghost use Rattle.pt_replying.specs.Laws.{RepliesAsRun, TellsOnAsRun};

/// What is told behind which an activation goes on is told in each run for which the machine stands,
/// and where no event is, what waits goes on by the next turn, over any machine whose turns are those
/// of code (Library Reference, `sys.settrace`, `sys.monitoring`).
pub fn what_is_told_goes_on_as_in_a_run<S>()
    ensures { (program : Program) (code : CodeBlocks Value) (machine : Machine S Value)
        (embed : State Value → S) (ways : Ways S) → IsOfCode code machine embed ways
        → (minds : Event Value → Bool) (n : ℕ)
        → TellsOnAsRun program code machine ways minds n }
{}

/// So does a reply with a value go on: behind a call of a builtin, the end of an iterator, a decision
/// and a handler that takes an exception that is told (Language Reference 4.1, 8.3, 8.4).
pub fn replies_go_on_as_in_a_run<S>()
    ensures { (program : Program) (code : CodeBlocks Value) (machine : Machine S Value)
        (embed : State Value → S) (ways : Ways S) → IsOfCode code machine embed ways
        → (minds : Event Value → Bool) (n : ℕ)
        → RepliesAsRun program code machine embed ways minds n }
{}
