//! The law of results that are used, the contract of a function that does nothing.
ghost use Rattle.std.specs.Prelude.{ℕ, Bool};
ghost use Rattle.pt_heap.specs.declared.value.Value.{Value};
ghost use Rattle.sem_code.specs.slots.Slots.{State};
ghost use Rattle.sem_code_machine.specs.code_machine.CodeBlocks.{CodeBlocks};
ghost use Rattle.sem_run.specs.run.Events.{Event};
ghost use Rattle.sem_run.specs.run.Machine.{Machine};
ghost use Rattle.pt_giving.specs.pt_host.World.{Program};
ghost use Rattle.pt_giving.specs.pt_purposes.Openers.{Ways};
ghost use Rattle.pt_giving.specs.pt_turning.Ways.{IsOfCode};
ghost use Rattle.pt_resuming.specs.Laws.{ResumesAsRun};

/// What a block gave goes to the ask that waited for it in the machine as in each run for which it
/// stands, over any machine whose turns are those of code: it is an iterator or its next item, its
/// truth decides where the run goes on, a context manager is entered, or it is dropped (Language
/// Reference 6.11, 8.1 to 8.3, 8.5).
pub fn results_are_used_as_in_a_run<S>()
    ensures { (program : Program) (code : CodeBlocks Value) (machine : Machine S Value)
        (embed : State Value → S) (ways : Ways S) → IsOfCode code machine embed ways
        → (minds : Event Value → Bool) (n : ℕ)
        → ResumesAsRun program code machine embed ways minds n }
{}
