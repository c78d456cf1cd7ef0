//! The law of answers, the contract of a function that does nothing.
ghost use Rattle.std.specs.Prelude.{ℕ, Bool};
ghost use Rattle.pt_heap.specs.declared.value.Value.{Value};
ghost use Rattle.sem_code.specs.slots.Slots.{State};
ghost use Rattle.sem_code_machine.specs.code_machine.CodeBlocks.{CodeBlocks};
ghost use Rattle.sem_run.specs.run.Events.{Event};
ghost use Rattle.sem_run.specs.run.Machine.{Machine};
ghost use Rattle.pt_arising.specs.pt_replying.pt_turning.sem_rows.pt_host.World.{Program};
ghost use Rattle.pt_arising.specs.pt_replying.pt_turning.pt_telling.pt_run_state.pt_purposes.Openers.{Ways};
ghost use Rattle.pt_arising.specs.pt_replying.pt_turning.Ways.{IsOfCode};
ghost use Rattle.pt_answering.specs.Laws.{AnswersAsRun};

/// What an instruction's row tells goes on in the machine as in each run for which it stands, over any
/// machine whose turns are those of code, where the answer gives a value (Language Reference 4.1).
pub fn answers_go_on_as_in_a_run<S>()
    ensures { (program : Program) (code : CodeBlocks Value) (machine : Machine S Value)
        (embed : State Value → S) (ways : Ways S) → IsOfCode code machine embed ways
        → (minds : Event Value → Bool) (n : ℕ)
        → AnswersAsRun program code machine embed ways minds n }
{}
