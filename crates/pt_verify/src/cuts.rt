//! The rows under which cuts differ, counted through the tables of a block.
ghost use Rattle.std.specs.Prelude.{◌<◌, ◌+◌, ℕ, Option, length, IfOk};
ghost use Rattle.pt_code.specs.View.{Ins, IsView};
ghost use Rattle.pt_places.specs.PlaceTable.{HasPlaces};
ghost use Rattle.sem_fits.specs.fits.Block.{block_of};
ghost use Rattle.pt_verify_depths.specs.PlaceTable.{NumberTooDeep};
ghost use Rattle.pt_verify_depths.specs.Refusals.{CutsOf};
ghost use Rattle.pt_verify_depths.specs.Sizes.{SizesMeet};
ghost use Rattle.pt_refusals.specs.Told.{TellsLeastBelow};

use pt_base::Memory;
use pt_block_tables::row_number;
use pt_code::{Code, CodeBlock};
use pt_cut_failures::first_differing;
use pt_places::Places;
use std::alloc::Global;

/// The least table row under which cuts differ, of so many first handler rows, none of which is too
/// deep.
pub fn first_cut(
    alloc: Global,
    code: &Code,
    block: &CodeBlock,
    places: &Places,
    limit: usize,
    rows: usize,
) -> Result<Option<usize>, Memory>
    ensures { IfOk result (λ row. (view : ℕ → Option Ins) → IsView block.now view
        → HasPlaces view places.now
        → (SizesMeet (block_of code.now block.now view) limit → ⊥)
        → ((n : ℕ) → n < rows
        → NumberTooDeep (block_of code.now block.now view) limit n → ⊥)
        → TellsLeastBelow (CutsOf (block_of code.now block.now view) limit)
        (length block.now.marks + rows) row) }
{
    let row = first_differing(alloc, code, block, places, limit, rows)?;
    row_number(block.marks.len(), row)
}
