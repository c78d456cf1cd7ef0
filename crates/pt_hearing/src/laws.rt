//! The law of raises of hooks, the contract of a function that does nothing.
ghost use Rattle.std.specs.Prelude.{ℕ, Bool};
ghost use Rattle.pt_heap.specs.declared.value.Value.{Value};
ghost use Rattle.sem_code.specs.slots.Slots.{State};
ghost use Rattle.sem_code_machine.specs.code_machine.CodeBlocks.{CodeBlocks};
ghost use Rattle.sem_run.specs.run.Events.{Event};
ghost use Rattle.sem_run.specs.run.Machine.{Machine};
ghost use Rattle.pt_closing.specs.pt_host.World.{Program};
ghost use Rattle.pt_closing.specs.pt_purposes.Openers.{Ways};
ghost use Rattle.pt_closing.specs.pt_turning.Ways.{IsOfCode};
ghost use Rattle.pt_hearing.specs.Laws.{HookRaisesAsRun, RaisesAsRun};

/// A hook's exception takes the place of what waits in the machine as in each run for which it
/// stands, over any machine whose turns are those of code, and so does a hook raise that was asked
/// (Library Reference, `sys.settrace`).
pub fn raises_of_hooks_do_as_in_a_run<S>()
    ensures in_place { (program : Program) (code : CodeBlocks Value) (machine : Machine S Value)
        (embed : State Value → S) (ways : Ways S) → IsOfCode code machine embed ways
        → (minds : Event Value → Bool) (n : ℕ)
        → RaisesAsRun program code machine ways minds n }
    ensures hook { (program : Program) (code : CodeBlocks Value) (machine : Machine S Value)
        (embed : State Value → S) (ways : Ways S) → IsOfCode code machine embed ways
        → (minds : Event Value → Bool) (n : ℕ)
        → HookRaisesAsRun program code machine ways minds n }
{}
