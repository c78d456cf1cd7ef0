//! Laws of instructions with marks and without, each the contract of a function that does nothing.
ghost use Rattle.std.specs.Prelude.{ℕ, Bool};
ghost use Rattle.pt_heap.specs.declared.value.Value.{Value};
ghost use Rattle.sem_code.specs.slots.CodeObject.{CodeObject};
ghost use Rattle.sem_code.specs.slots.Slots.{State};
ghost use Rattle.sem_code_machine.specs.code_machine.CodeBlocks.{CodeBlocks};
ghost use Rattle.sem_run.specs.run.Events.{Event};
ghost use Rattle.sem_run.specs.run.Machine.{Machine};
ghost use Rattle.pt_applying.specs.law_doing.pt_answering.pt_opening.pt_host.World.{Program};
ghost use Rattle.pt_applying.specs.law_doing.pt_answering.pt_opening.pt_purposes.Openers.{Ways};
ghost use Rattle.pt_applying.specs.law_doing.pt_answering.pt_replying.pt_turning.Ways.{IsOfCode};
ghost use Rattle.pt_applying.specs.law_doing.pt_machine_state.pt_code_facts.sem_rows.heap_rows.Leads.{HasHeapExtras};
ghost use Rattle.pt_applying.specs.Known.{HasSilentExtras};
ghost use Rattle.law_marks.specs.Places.{AsksByPlace, CodeAsksByPlace};
ghost use Rattle.law_marks.specs.Laws.{MarkedAsRun, MovesAsRun, UnmarkedAsRun};

/// The machine of code has asks that come from their places, with ways that tell so.
pub fn code_asks_from_its_places()
    ensures { (code : CodeBlocks Value) → CodeAsksByPlace code }
{}

/// The operations that no tree asks for call nothing, where they aren't supported.
pub fn operations_of_no_tree_call_nothing()
    ensures { (program : Program) (code : CodeObject Value) → HasHeapExtras code
        → HasSilentExtras code }
{}

/// An instruction with a mark that is next in the machine is an act of each run for which it stands, of
/// which control tells what is told before it, or the run is stuck there, over any machine whose
/// turns are those of code (Language Reference 4.1).
pub fn instructions_with_marks_are_acts<S>()
    ensures { (program : Program) (code : CodeBlocks Value) (machine : Machine S Value)
        (embed : State Value → S) (ways : Ways S) → IsOfCode code machine embed ways
        → AsksByPlace code ways → (minds : Event Value → Bool) (n : ℕ)
        → MarkedAsRun program code machine embed ways minds n }
{}

/// One without a mark asks without a unit, and waits as an act of which nothing is told before; or it
/// moves, and once its row is done in the machine it goes on as in each run for which that stood; or
/// the run is stuck there (Language Reference 4.1).
pub fn instructions_without_marks_take_no_unit<S>()
    ensures asks { (program : Program) (code : CodeBlocks Value) (machine : Machine S Value)
        (embed : State Value → S) (ways : Ways S) → IsOfCode code machine embed ways
        → AsksByPlace code ways → (minds : Event Value → Bool) (n : ℕ)
        → UnmarkedAsRun program code machine embed ways minds n }
    ensures moves { (program : Program) (code : CodeBlocks Value) (machine : Machine S Value)
        (embed : State Value → S) (ways : Ways S) → IsOfCode code machine embed ways
        → (minds : Event Value → Bool) (n : ℕ)
        → MovesAsRun program code machine embed ways minds n }
{}
