//! The law of acts that are done, the contract of a function that does nothing.
ghost use Rattle.std.specs.Prelude.{◌≡◌, ℕ, Bool, true, Option, None};
ghost use Rattle.pt_heap.specs.declared.value.Value.{Value};
ghost use Rattle.sem_code.specs.slots.Slots.{State};
ghost use Rattle.sem_code_machine.specs.code_machine.CodeBlocks.{CodeBlocks};
ghost use Rattle.sem_run.specs.run.Events.{Event};
ghost use Rattle.sem_run.specs.run.Machine.{Machine};
ghost use Rattle.pt_making.specs.pt_host.World.{Program};
ghost use Rattle.pt_making.specs.pt_purposes.Openers.{Ways};
ghost use Rattle.pt_making.specs.pt_turning.Ways.{IsOfCode};
ghost use Rattle.law_doing.specs.Laws.{ActsAsRun};

/// Where nothing more is told before an act that waits in the machine, each run for which it stands
/// asks what the instruction asks, which takes slots as that does, and comes to where its row leads,
/// over any machine whose turns are those of code (Language Reference 4.1).
pub fn acts_that_wait_are_done_as_in_a_run<S>()
    ensures { (program : Program) (code : CodeBlocks Value) (machine : Machine S Value)
        (embed : State Value → S) (ways : Ways S) → IsOfCode code machine embed ways
        → (minds : Event Value → Bool) (n : ℕ) (ends : Option Value → Bool) → ends None ≡ true
        → ActsAsRun program code machine embed ways minds n ends }
{}
