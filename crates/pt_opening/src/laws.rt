//! The law of blocks that open, the contract of a function that does nothing.
ghost use Rattle.pt_heap.specs.declared.value.Value.{Value};
ghost use Rattle.sem_code.specs.slots.Slots.{State};
ghost use Rattle.sem_code_machine.specs.code_machine.CodeBlocks.{CodeBlocks};
ghost use Rattle.sem_run.specs.run.Machine.{Machine};
ghost use Rattle.pt_hearing.specs.pt_host.World.{Program};
ghost use Rattle.pt_hearing.specs.pt_purposes.Openers.{Ways};
ghost use Rattle.pt_hearing.specs.pt_turning.Ways.{IsOfCode};
ghost use Rattle.pt_opening.specs.Laws.{OpensAsRun};

/// A block opens in the machine as in each run for which it stands, over any machine whose turns are
/// those of code (Language Reference 4.1, 6.3.4).
pub fn blocks_open_as_in_a_run<S>()
    ensures { (program : Program) (code : CodeBlocks Value) (machine : Machine S Value)
        (embed : State Value → S) (ways : Ways S) → IsOfCode code machine embed ways
        → OpensAsRun program code machine ways }
{}
