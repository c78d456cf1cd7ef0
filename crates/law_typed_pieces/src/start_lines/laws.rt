//! Laws of the starts of blocks, each the contract of a function that does nothing.

ghost use Rattle.law_typed_pieces.specs.start_lines.Laws.{StartsHaveStatements};

/// In a block that comes of its piece, a statement starts on each line of the table of starts: where
/// control has no statement to jump to, code has no start (Library Reference, "inspect": `f_lineno`).
pub fn statements_start_on_the_lines_of_starts<V>()
    ensures { StartsHaveStatements V }
{}
