//! Laws of instructions, each the contract of a function that does nothing.
ghost use Rattle.std.specs.Prelude.{ℕ, Bool};
ghost use Rattle.pt_heap.specs.declared.value.Value.{Value};
ghost use Rattle.sem_code.specs.slots.Slots.{State};
ghost use Rattle.sem_code_machine.specs.code_machine.CodeBlocks.{CodeBlocks};
ghost use Rattle.sem_run.specs.run.Events.{Event};
ghost use Rattle.sem_run.specs.run.Machine.{Machine};
ghost use Rattle.law_doing.specs.pt_answering.pt_opening.pt_host.World.{Program};
ghost use Rattle.law_doing.specs.pt_answering.pt_opening.pt_purposes.Openers.{Ways};
ghost use Rattle.law_doing.specs.pt_answering.pt_replying.pt_turning.Ways.{IsOfCode};
ghost use Rattle.pt_applying.specs.Acting.{ActsApply};
ghost use Rattle.pt_applying.specs.Laws.{AppliesAsRun};

/// What an instruction came to is done in the machine as in each run for which it stands, over any
/// machine whose turns are those of code (Language Reference 4.1).
pub fn instructions_do_as_in_a_run<S>()
    ensures { (program : Program) (code : CodeBlocks Value) (machine : Machine S Value)
        (embed : State Value → S) (ways : Ways S) → IsOfCode code machine embed ways
        → (minds : Event Value → Bool) (n : ℕ)
        → AppliesAsRun program code machine embed ways minds n }
{}

/// Where nothing more is told before an act that waits, and its instruction's row is done in the
/// machine, each run for which the machine stood comes to where the row leads, and what the row came
/// to is done there, over any machine whose turns are those of code (Language Reference 4.1).
pub fn acts_that_wait_are_applied_as_in_a_run<S>()
    ensures { (program : Program) (code : CodeBlocks Value) (machine : Machine S Value)
        (embed : State Value → S) (ways : Ways S) → IsOfCode code machine embed ways
        → (minds : Event Value → Bool) (n : ℕ)
        → ActsApply program code machine embed ways minds n }
{}
