//! Laws of the walk over pieces, each the contract of a function that does nothing.

ghost use Rattle.sem_fits.specs.fits.Block.{Block};
ghost use Rattle.law_pieces.specs.piece_kinds.Laws.{
  CommonIsOfOneOrigin,
  OneOriginIsCommon,
  TableHasKinds,
  WalkIsRight,
  WalkIsTable,
};

/// Where a piece that is typed is the code of a block, each step from a place leads to the slots
/// that the walk has there: of the same kinds, the lowest as they were, and others made there.
pub fn the_walk_over_a_piece_is_right<V>()
    ensures { WalkIsRight V }
{}

/// Where moreover each exit of a loop leads to slots that lie below the loop, these slots are a table
/// of the block: it has the kinds with which the block starts, each step and each jump out of a loop
/// agrees with it, and some way comes to each place that has slots.
pub fn the_walk_over_a_piece_gives_a_table<V>()
    ensures { WalkIsTable V }
{}

/// In a block that has a table of slots with which its steps agree, each place gets the kinds of
/// the table alone; a slot that two places have in common was made at one place, and slots that
/// were made at one place are in common.
pub fn slots_in_common_are_of_one_origin()
    ensures kinds { (b : Block) → TableHasKinds b }
    ensures common { (b : Block) → CommonIsOfOneOrigin b }
    ensures origin { (b : Block) → OneOriginIsCommon b }
{}
