//! The law of the parts of a text, the contract of a function that does nothing.

ghost use Rattle.law_jumps.specs.text_parts.Laws.{BlocksOfTextsHaveParts};

/// In the code of a text that is a script, each part of a block has its closed part, and the first
/// statement on a line starts at the least place of the line, in its parts (Library Reference,
/// "inspect": `f_lineno`).
pub fn the_statements_of_a_text_lie_in_their_parts<V>()
    ensures { BlocksOfTextsHaveParts V }
{}
