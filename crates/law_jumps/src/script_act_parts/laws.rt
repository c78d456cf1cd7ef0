//! A law of the acts of a script's code, the contract of a function that does nothing.

ghost use Rattle.law_jumps.specs.script_act_parts.Laws.{ScriptActsLieInParts};

/// In the code of each block of a script, each place to which some way comes and at which an act
/// begins lies in the parts of the nest that the tree gives the act (Library Reference, "inspect":
/// `f_lineno`).
pub fn the_acts_of_a_script_lie_in_their_parts<V>()
    ensures { ScriptActsLieInParts V }
{}
