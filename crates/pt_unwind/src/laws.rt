ghost use Rattle.std.specs.Prelude.{List, filter};
ghost use Rattle.pt_base.specs.declared.numbers.Pc.{Pc};
ghost use Rattle.pt_heap.specs.declared.value.Value.{Value};
ghost use Rattle.pt_ranges.specs.declared.handlers.Handler.{Handler};
ghost use Rattle.sem_code.specs.slots.CodeObject.{CodeObject};
ghost use Rattle.sem_code.specs.slots.Slots.{Abrupt, Slots};
ghost use Rattle.pt_unwind.specs.Steps.{LandsSame, TakesSame};

/// What leaves a place of code goes on in the machine of code as it lands here: a handler takes the
/// same, holds the same on as many slots, and what no handler takes goes to the same place or ends
/// the block. So `land` finds the step of the machine.
#[tactic(auto, using(crate::proofs::StepLemmas::takes_same, crate::proofs::StepLemmas::lands_same))]
pub fn a_landing_is_a_step_of_the_machine()
    ensures takes { (row : Handler) (a : Abrupt Value) → TakesSame row a }
    ensures lands { (code : CodeObject Value) (rows : List Handler) (from : Pc) (a : Abrupt Value)
        (slots : Slots Value) → LandsSame code rows from a slots }
{}
