//! Laws of the closed parts of a script's code, each the contract of a function that does nothing.

ghost use Rattle.law_parts.specs.script_parts.Laws.{BlocksHaveParts};

/// In the code of each block of a script, each part of the syntax has its closed part, and the
/// first statement on a line starts at the least place that the table of starts has for the line,
/// in the parts around it and with no other slots (Library Reference, "inspect": `f_lineno`).
pub fn the_statements_of_a_script_lie_in_their_parts<V>()
    ensures { BlocksHaveParts V }
{}
