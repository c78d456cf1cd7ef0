//! Laws of refusals, each the contract of a function that does nothing.

ghost use Rattle.std.specs.Prelude.{ℕ};
ghost use Rattle.sem_fits.specs.fits.Block.{Block};
ghost use Rattle.pt_refusals.specs.Laws.{AgreeingBlocksAreTold, BlocksListRows, DisagreementStays, FirstPlaceRefuses, PlacesAreTold, SizesTellFailures};

/// Of how a block fails up to a place its refusal there is told, or that it agrees up to there. Its
/// handler rows are those that places have.
pub fn a_place_is_told()
    ensures told { (b : Block) → PlacesAreTold b }
    ensures rows { BlocksListRows }
{}

/// What sizes tell of the place up to which they disagree first is how the block fails there, with
/// the rows under which cuts differ.
pub fn disagreeing_sizes_are_failures()
    ensures { (b : Block) → SizesTellFailures b }
{}

/// Where a block doesn't agree up to a place it doesn't agree up to one behind it. So the first is
/// found by halving.
pub fn agreement_falls_short_for_good()
    ensures { (b : Block) → DisagreementStays b }
{}

/// What refuses a block at the place behind one up to which it agrees refuses the block, where its
/// tables hold.
pub fn the_first_place_refuses()
    ensures { (b : Block) → FirstPlaceRefuses b }
{}

/// Of a block whose tables hold and which agrees it is told why it is refused, or that it fits.
pub fn a_block_that_agrees_is_told()
    ensures { (b : Block) → AgreeingBlocksAreTold b }
{}
