//! Laws of the slots that instructions take, each the contract of a function that does nothing.

ghost use Rattle.pt_code.specs.View.{Ins};
ghost use Rattle.sem_code.specs.slots.CodeObject.{CodeObject};
ghost use Rattle.law_takes.specs.Laws.{InstructionsTake, LandsAlike};

/// Each instruction takes so many slots as it asks. By those below them a raise in place of the reply
/// lands, and where the reply gives something above them their number tells where a raise lands then
/// (Library Reference, "dis"; Language Reference 8.4).
pub fn instructions_take_so_many_slots<V>()
    ensures { (code : CodeObject V) (i : Ins) → InstructionsTake code i }
{}

/// Slots by which one exception lands where it would by others are as good for each.
pub fn raises_land_alike<V>()
    ensures { (code : CodeObject V) → LandsAlike code }
{}
