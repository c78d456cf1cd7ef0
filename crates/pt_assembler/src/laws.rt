//! Laws of pieces, each the contract of a function that does nothing.

ghost use Rattle.pt_assembler.specs.Laws.{StandsWhereLaid};

/// A piece that is laid out from the start of a block stands in the code object of the block that
/// comes of it: each instruction at its place, with its act, its handler rows and the place behind
/// it; what its operand names; and each start of a statement.
pub fn a_piece_stands_where_it_is_laid<V>()
    ensures { StandsWhereLaid V }
{}
