//! The law of exceptions that arise, the contract of a function that does nothing.
ghost use Rattle.std.specs.Prelude.{ℕ, Bool};
ghost use Rattle.pt_heap.specs.declared.value.Value.{Value};
ghost use Rattle.sem_code.specs.slots.Slots.{State};
ghost use Rattle.sem_code_machine.specs.code_machine.CodeBlocks.{CodeBlocks};
ghost use Rattle.sem_run.specs.run.Events.{Event};
ghost use Rattle.sem_run.specs.run.Machine.{Machine};
ghost use Rattle.pt_replying.specs.pt_turning.sem_rows.pt_host.World.{Program};
ghost use Rattle.pt_replying.specs.pt_turning.pt_telling.pt_run_state.pt_purposes.Openers.{Ways};
ghost use Rattle.pt_replying.specs.pt_turning.Ways.{IsOfCode};
ghost use Rattle.pt_arising.specs.Laws.{ArisesAsRun};

/// An exception arises in place of a reply in the machine as in each run for which it stands, over
/// any machine whose turns are those of code (Language Reference 7.8, 8.4).
pub fn exceptions_arise_as_in_a_run<S>()
    ensures { (program : Program) (code : CodeBlocks Value) (machine : Machine S Value)
        (embed : State Value → S) (ways : Ways S) → IsOfCode code machine embed ways
        → (minds : Event Value → Bool) (n : ℕ)
        → ArisesAsRun program code machine embed ways minds n }
{}
