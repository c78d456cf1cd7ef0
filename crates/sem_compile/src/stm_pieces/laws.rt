//! Laws of the code of statements and of blocks in pieces, each the contract of a function that
//! does nothing.

ghost use Rattle.sem_compile.specs.stm_pieces.Laws.{
  BlocksAreCode,
  BlocksBegin,
  PiecesFit,
  StartsRise,
  StatementIsCode,
  StatementsAreCode,
};

/// Where the piece of a statement stands in a code object, there stands the code of the statement;
/// and where the piece of several stands, there stands the code of them all.
pub fn the_piece_of_a_statement_is_its_code<V>()
    ensures statement { StatementIsCode V }
    ensures statements { StatementsAreCode V }
{}

/// A block that comes of its piece, laid out from the start, has the code of what it runs: of
/// statements, of a lambda, or of a generator expression.
pub fn the_piece_of_a_block_is_its_code<V>()
    ensures { BlocksAreCode V }
{}

/// Such code comes from the beginning of its block to where it is in step with control.
pub fn the_code_of_pieces_follows_its_block<V>()
    ensures { BlocksBegin V }
{}

/// In the piece of a block an instruction does what each act asks, and exits of loops stand in
/// loops: where no `break` or `continue` stands outside of its loop, blocks within take cells
/// along, targets of comprehensions are names of the block alone, and no argument has an empty
/// name or one of stars.
pub fn the_pieces_of_blocks_fit<V>()
    ensures { PiecesFit V }
{}

/// In a block that comes of its piece each statement starts behind the start of the one before.
pub fn statements_start_one_behind_another<V>()
    ensures { StartsRise V }
{}
