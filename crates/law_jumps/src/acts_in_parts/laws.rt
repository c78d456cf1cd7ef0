//! The law of where acts begin, the contract of a function that does nothing.

ghost use Rattle.law_jumps.specs.acts_in_parts.Laws.{ScriptActsAreInParts};

/// Where an act of a script begins, whatever was replied and wherever a debugger jumped, the place
/// of code lies in the closed parts of control's nest, and its slots begin with what these hold,
/// but at an exit that is due, from which no jump is permitted (Library Reference, "inspect":
/// `f_lineno`). It is asked that the block fits and that code jumps as is said of slots.
pub fn acts_begin_in_their_parts<V>()
    ensures { ScriptActsAreInParts V }
{}
