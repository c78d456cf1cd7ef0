//! The law of results that are given, the contract of a function that does nothing.
ghost use Rattle.std.specs.Prelude.{ℕ, Bool};
ghost use Rattle.pt_heap.specs.declared.value.Value.{Value};
ghost use Rattle.sem_code.specs.slots.Slots.{State};
ghost use Rattle.sem_code_machine.specs.code_machine.CodeBlocks.{CodeBlocks};
ghost use Rattle.sem_run.specs.run.Events.{Event};
ghost use Rattle.sem_run.specs.run.Machine.{Machine};
ghost use Rattle.pt_calling.specs.pt_arising.pt_opening.pt_host.World.{Program};
ghost use Rattle.pt_calling.specs.pt_arising.pt_opening.pt_purposes.Openers.{Ways};
ghost use Rattle.pt_calling.specs.pt_arising.pt_replying.pt_turning.Ways.{IsOfCode};
ghost use Rattle.pt_giving.specs.Laws.{GivesAsRun};

/// The result of a block goes to the ask that waited for it in the machine as in each run for which it
/// stands, over any machine whose turns are those of code: its value, the instance that it was
/// called for or the opposite of its answer is given, or its exception arises (Language Reference
/// 3.3.1, 4.1, 6.3.4, 6.10.2).
pub fn results_are_given_as_in_a_run<S>()
    ensures { (program : Program) (code : CodeBlocks Value) (machine : Machine S Value)
        (embed : State Value → S) (ways : Ways S) → IsOfCode code machine embed ways
        → (minds : Event Value → Bool) (n : ℕ)
        → GivesAsRun program code machine embed ways minds n }
{}
