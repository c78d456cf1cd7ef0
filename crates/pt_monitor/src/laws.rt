//! Laws of tools, each the contract of a function that does nothing.
ghost use Rattle.pt_heap.specs.declared.value.Value.{Value};
ghost use Rattle.sem_run.specs.run.Tools.{Tools, Location};
ghost use Rattle.pt_monitor.specs.Alike.{ToolsAlike};
ghost use Rattle.pt_monitor.specs.Laws.{AnswerAlike, SwitchesOff, RestartsAll, IsToldByMask};

/// Tools that are alike answer each call alike, and stay so; the same callbacks are due.
pub fn tools_that_are_alike_answer_alike()
    ensures { (a b : Tools Value) → ToolsAlike a b → AnswerAlike a b }
{}

/// DISABLE switches an event of a tool off at one place, and no other.
pub fn disable_switches_off_one_place()
    ensures { (l : Location) (ts : Tools Value) → SwitchesOff l ts }
{}

/// A restart switches all on again, for all tools.
pub fn restart_is_for_all_tools()
    ensures { (ts : Tools Value) → RestartsAll ts }
{}

/// At an event that the mask of a block lacks no callback is due.
pub fn a_mask_tells_who_is_wanted()
    ensures { (l : Location) (ts : Tools Value) → IsToldByMask ts l }
{}
