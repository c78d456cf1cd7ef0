//! Laws of the closed parts of a block, each the contract of a function that does nothing.

ghost use Rattle.law_parts.specs.part_slots.Laws.{StatementsLieInParts};

/// Where the code of a block is that of its piece, there is a closed part for each one of the
/// syntax, known by its slot and by the place where that is made. The first statement on a line is
/// the first that starts on it in code; some way comes there, and the place lies in the parts
/// around the statement, with no other slots (Library Reference, "inspect": `f_lineno`).
///
/// It is asked that no suite is empty that code needs, and that the handlers of a `try` share no
/// line with its `else` part, as texts have it.
pub fn the_statements_of_a_block_lie_in_its_parts<A, V>()
    ensures { StatementsLieInParts A V }
{}
