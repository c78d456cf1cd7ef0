//! The law of calls, the contract of a function that does nothing.
ghost use Rattle.std.specs.Prelude.{◌≡◌, ℕ, Bool, false, Option, Some};
ghost use Rattle.pt_heap.specs.declared.value.Value.{Value};
ghost use Rattle.sem_code.specs.slots.Slots.{State};
ghost use Rattle.sem_code_machine.specs.code_machine.CodeBlocks.{CodeBlocks};
ghost use Rattle.sem_run.specs.run.Events.{Event};
ghost use Rattle.sem_run.specs.run.Machine.{Machine};
ghost use Rattle.pt_reraising.specs.pt_machine_state.pt_code_facts.sem_rows.pt_host.World.{Program};
ghost use Rattle.pt_reraising.specs.pt_failing.pt_arising.pt_replying.pt_turning.pt_telling.pt_run_state.pt_purposes.Openers.{Ways};
ghost use Rattle.pt_reraising.specs.pt_failing.pt_arising.pt_replying.pt_turning.Ways.{IsOfCode};
ghost use Rattle.pt_calling.specs.Laws.{CallsAsRun};

/// Where an instruction calls a block it opens in the machine as in each run for which it stands, over
/// any machine whose turns are those of code, and the activation that called waits for what it was
/// called for, whatever that is; or there are too many, and an exception arises, of which nothing is
/// said where the next item of an iterator is asked for (Language Reference 2.4.3, 3.3.1, 6.3.4,
/// 6.10.2, 7.2, 8.3, 8.5, 8.8).
pub fn calls_open_blocks_as_in_a_run<S>()
    ensures { (program : Program) (code : CodeBlocks Value) (machine : Machine S Value)
        (embed : State Value → S) (ways : Ways S) → IsOfCode code machine embed ways
        → (minds : Event Value → Bool) (n : ℕ) (ends : Option Value → Bool)
        → ((v : Value) → ends (Some v) ≡ false)
        → CallsAsRun program code machine embed ways minds n ends }
{}
