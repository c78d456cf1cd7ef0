//! The law of classes that are made, the contract of a function that does nothing.
ghost use Rattle.std.specs.Prelude.{ℕ, Bool};
ghost use Rattle.pt_heap.specs.declared.value.Value.{Value};
ghost use Rattle.sem_code.specs.slots.Slots.{State};
ghost use Rattle.sem_code_machine.specs.code_machine.CodeBlocks.{CodeBlocks};
ghost use Rattle.sem_run.specs.run.Events.{Event};
ghost use Rattle.sem_run.specs.run.Machine.{Machine};
ghost use Rattle.pt_giving.specs.pt_host.World.{Program};
ghost use Rattle.pt_giving.specs.pt_purposes.Openers.{Ways};
ghost use Rattle.pt_giving.specs.pt_turning.Ways.{IsOfCode};
ghost use Rattle.pt_making.specs.Laws.{MakesAsRun};

/// A class is made of the names of its body in the machine as in each run for which it stands, over
/// any machine whose turns are those of code (Language Reference 8.8).
pub fn classes_are_made_as_in_a_run<S>()
    ensures { (program : Program) (code : CodeBlocks Value) (machine : Machine S Value)
        (embed : State Value → S) (ways : Ways S) → IsOfCode code machine embed ways
        → (minds : Event Value → Bool) (n : ℕ)
        → MakesAsRun program code machine embed ways minds n }
{}
