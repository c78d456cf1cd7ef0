//! Laws of turns in which no instruction is done, each the contract of a function that does nothing.
ghost use Rattle.std.specs.Prelude.{ℕ, Bool};
ghost use Rattle.pt_heap.specs.declared.value.Value.{Value};
ghost use Rattle.sem_code.specs.slots.Slots.{State};
ghost use Rattle.sem_code_machine.specs.code_machine.CodeBlocks.{CodeBlocks};
ghost use Rattle.sem_run.specs.run.Events.{Event};
ghost use Rattle.sem_run.specs.run.Machine.{Machine};
ghost use Rattle.pt_telling.specs.pt_run_state.pt_purposes.sem_rows.pt_host.World.{Program};
ghost use Rattle.pt_telling.specs.pt_run_state.pt_purposes.Openers.{Ways};
ghost use Rattle.pt_turning.specs.Laws.{BeginsAsRun, EndsAsRun, GoesOnAsRun, ReraisesAsRun};
ghost use Rattle.pt_turning.specs.Ways.{IsOfCode, IsOfItself};

/// A block begins and ends in the machine as in each run for which it stands, over any machine whose
/// turns are those of code (Language Reference 4.1).
pub fn blocks_begin_and_end_as_in_a_run<S>()
    ensures begins { (program : Program) (code : CodeBlocks Value) (machine : Machine S Value)
        (embed : State Value → S) (ways : Ways S) → IsOfCode code machine embed ways
        → (minds : Event Value → Bool) (n : ℕ)
        → BeginsAsRun program code machine ways minds n }
    ensures ends { (program : Program) (code : CodeBlocks Value) (machine : Machine S Value)
        (embed : State Value → S) (ways : Ways S) → IsOfCode code machine embed ways
        → (minds : Event Value → Bool) (n : ℕ)
        → EndsAsRun program code machine ways minds n }
{}

/// So does a raise go on there that was held, and lands (Language Reference 8.4).
pub fn raises_go_on_as_in_a_run<S>()
    ensures { (program : Program) (code : CodeBlocks Value) (machine : Machine S Value)
        (embed : State Value → S) (ways : Ways S) → IsOfCode code machine embed ways
        → (minds : Event Value → Bool) (n : ℕ)
        → ReraisesAsRun program code machine ways minds n }
{}

/// And so does what waits go on by the next turn, once nothing more is told.
pub fn what_waits_goes_on_as_in_a_run<S>()
    ensures { (program : Program) (code : CodeBlocks Value) (machine : Machine S Value)
        (embed : State Value → S) (ways : Ways S) → IsOfCode code machine embed ways
        → (minds : Event Value → Bool) (n : ℕ)
        → GoesOnAsRun program code machine ways minds n }
{}

/// The machine of code is such a machine.
pub fn code_is_a_machine_of_code()
    ensures { (code : CodeBlocks Value) → IsOfItself code }
{}
