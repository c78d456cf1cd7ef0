//! Laws of the pieces of blocks, each the contract of a function that does nothing.

ghost use Rattle.law_typed_pieces.specs.typed_pieces.Laws.{HaveTables, PiecesAreTyped};

/// The piece of each block is typed: at each place that some way comes to, an instruction finds what
/// it takes, and whatever comes to a place has the same slots. A block of statements, a lambda and a
/// generator expression end in nothing that goes on.
pub fn the_pieces_of_blocks_are_typed<V>()
    ensures { PiecesAreTyped V }
{}

/// Where the code of a block is that of its piece, the walk over the piece gives a table of the block:
/// so each place gets the kinds of the table alone, and two places have a slot in common just where it
/// was made at one place.
pub fn the_walk_over_a_block_gives_a_table<A, V>()
    ensures { HaveTables A V }
{}
