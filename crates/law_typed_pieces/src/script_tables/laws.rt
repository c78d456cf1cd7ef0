//! Laws of the code of a script, each the contract of a function that does nothing.

ghost use Rattle.law_typed_pieces.specs.script_tables.Laws.{BlocksHaveTables, StartsHaveStatements};

/// In a script without a fault in its declarations, the code of each block has a table of its slots,
/// found in one walk over the piece from which it was laid out.
pub fn the_blocks_of_a_script_have_tables<V>()
    ensures { BlocksHaveTables V }
{}

/// In the code of each block of a script a statement starts on each line of the table of starts: where
/// control has none to jump to, code has none (Library Reference, "inspect": `f_lineno`).
pub fn the_starts_of_a_script_have_statements<V>()
    ensures { StartsHaveStatements V }
{}
