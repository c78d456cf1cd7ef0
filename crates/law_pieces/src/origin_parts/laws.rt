//! Laws of the closed parts of blocks, each the contract of a function that does nothing.

ghost use Rattle.sem_fits.specs.fits.Block.{Block};
ghost use Rattle.law_pieces.specs.origin_parts.Laws.{OriginsAreParts};

/// In a block that has a table of its slots, the places whose slot of some number was made at one
/// place are a closed part: no step keeps the slot across their border, and it is in common between
/// all of them.
pub fn slots_of_one_origin_are_a_closed_part()
    ensures { (b : Block) → OriginsAreParts b }
{}
