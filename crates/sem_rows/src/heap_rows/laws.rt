//! Laws of instructions, each the contract of a function that does nothing.

ghost use Rattle.pt_code.specs.View.{Ins};
ghost use Rattle.pt_heap.specs.declared.value.Value.{Value};
ghost use Rattle.pt_host.specs.World.{Program, Stores};
ghost use Rattle.sem_rows.specs.heap_rows.Laws.{AsksLead, DiscardsLead, LeavesLead, MovesLead};
ghost use Rattle.sem_run.specs.run.Host.{Here};
ghost use Rattle.sem_code.specs.slots.CodeObject.{CodeObject};

/// Where an instruction asks the host it leads where the answer does, whatever it asks, with a mark
/// or without: to what its reply gives, or to where a raise lands. Where it asks for nothing it
/// leads on.
#[tactic(auto, using(crate::proofs::heap_rows::RowLemmas::asks_lead, crate::proofs::heap_rows::RowLemmas::moves_lead, crate::proofs::heap_rows::RowLemmas::leaves_lead, crate::proofs::heap_rows::RowLemmas::discards_lead))]
pub fn instructions_lead_where_answers_do()
    ensures asks { (program : Program) (code : CodeObject Value) (i : Ins) (h : Here Value)
        (st : Stores) → AsksLead program code i h st }
    ensures moves { (program : Program) (code : CodeObject Value) (i : Ins) (h : Here Value)
        (st : Stores) → MovesLead program code i h st }
    ensures leaves { (program : Program) (code : CodeObject Value) (i : Ins) (h : Here Value)
        (st : Stores) → LeavesLead program code i h st }
    ensures discards { (program : Program) (code : CodeObject Value) (i : Ins) (h : Here Value)
        (st : Stores) → DiscardsLead program code i h st }
{}
