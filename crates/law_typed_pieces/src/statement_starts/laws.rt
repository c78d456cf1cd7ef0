//! Laws of where statements start in code, each the contract of a function that does nothing.

ghost use Rattle.law_typed_pieces.specs.statement_starts.Laws.{StatementsHaveStarts};

/// Where the code of a block is that of its piece, the table of starts has each line on which a
/// statement of the block starts, with a place at which an instruction stands (Library Reference,
/// "inspect": `f_lineno`).
pub fn each_line_of_a_statement_has_a_start<A, V>()
    ensures { StatementsHaveStarts A V }
{}
