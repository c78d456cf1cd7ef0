//! The law of turns in which no instruction is done, the contract of a function that does nothing.
ghost use Rattle.std.specs.Prelude.{ℕ, Bool};
ghost use Rattle.pt_heap.specs.declared.value.Value.{Value};
ghost use Rattle.sem_code.specs.slots.Slots.{State};
ghost use Rattle.sem_code_machine.specs.code_machine.CodeBlocks.{CodeBlocks};
ghost use Rattle.sem_run.specs.run.Events.{Event};
ghost use Rattle.sem_run.specs.run.Machine.{Machine};
ghost use Rattle.pt_closing.specs.pt_host.World.{Program};
ghost use Rattle.pt_closing.specs.pt_purposes.Openers.{Ways};
ghost use Rattle.pt_closing.specs.pt_turning.Ways.{IsOfCode};
ghost use Rattle.pt_advancing.specs.Laws.{AdvancesAsRun, TurnsAdvance};

/// A turn of the machine leads each run for which it stands to where the turn comes to, or to before
/// what it leaves to be done, and a turn that is done is as turns are to be, over any machine whose
/// turns are those of code (Language Reference 4.1; Library Reference, `bdb`).
pub fn turns_without_instructions_are_those_of_a_run<S>()
    ensures leads { (program : Program) (code : CodeBlocks Value) (machine : Machine S Value)
        (embed : State Value → S) (ways : Ways S) → IsOfCode code machine embed ways
        → (minds : Event Value → Bool) (n : ℕ)
        → AdvancesAsRun program code machine ways minds n }
    ensures turns { (program : Program) (code : CodeBlocks Value) (machine : Machine S Value)
        (embed : State Value → S) (ways : Ways S) → IsOfCode code machine embed ways
        → (minds : Event Value → Bool) (n : ℕ)
        → TurnsAdvance program code machine ways minds n }
{}
