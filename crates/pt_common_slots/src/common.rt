//! Slots in common, for all slots at once.
ghost use Rattle.std.specs.Prelude.{◌≡◌, ℕ, Option, IfOk, MatchBool};
ghost use Rattle.pt_code.specs.declared.Code.{Code};
ghost use Rattle.pt_code.specs.View.{Ins, IsView};
ghost use Rattle.pt_places.specs.PlaceTable.{HasPlaces};
ghost use Rattle.sem_fits.specs.fits.Block.{Block, block_of};
ghost use Rattle.sem_fits.specs.fits.Leaves.{Common};
ghost use Rattle.pt_verify_depths.specs.PlaceTable.{AreSizesUpTo};
ghost use Rattle.pt_joins.specs.Joins.{IsForest};
ghost use Rattle.pt_common_slots.specs.Common.{RowsLead, TellsCommon};
ghost use Rattle.pt_common_slots.specs.Joins.{AreLowSizes, low_size};

use crate::own::own_joins;
use pt_base::{Memory, Pc};
use pt_code::CodeBlock;
use pt_joins::{Joins, joins_of};
use pt_places::Places;
use pt_row_joins::row_joins;
use std::alloc::Global;

fn low_size(size: Option<u64>, at: usize, limit: usize) -> Option<u64>
    ensures { result ≡ low_size limit at size }
{
    if at <= limit { size } else { None }
}

/// The sizes of the places at the limit and below alone.
fn low_sizes(alloc: Global, sizes: &[Option<u64>], limit: usize) -> Result<Vec<Option<u64>>, Memory>
    ensures { IfOk result (λ low. AreLowSizes limit sizes.now low.items) }
{
    let mut low = Vec::new(alloc);
    for at in 0..sizes.len() {
        low.push(low_size(sizes[at], at, limit))?;
    }
    Ok(low)
}

/// Which slots are the same at two places of a block through the instructions at the limit and
/// below, on each level those of one slot, counted from the lowest (Library Reference, "inspect":
/// `f_lineno`). Sizes have to agree up to the limit, and handler rows to lead to places. For n
/// places and r handler rows it takes time and memory O((n + r) log n), however many slots lie
/// there.
///
/// # Errors
///
/// `Memory` for want of it, and where the block has 2^32 bytes or more, as none of a code file has.
pub fn common_slots(
    alloc: Global,
    block: &CodeBlock,
    places: &Places,
    sizes: &[Option<u64>],
    limit: Pc,
) -> Result<Joins, Memory>
    ensures forest { IfOk result (λ told. IsForest told.nodes.items) }
    ensures exact { IfOk result (λ told. (code : Code) (view : ℕ → Option Ins)
        → IsView block.now view → HasPlaces view places.now
        → AreSizesUpTo (block_of code block.now view) limit.0 sizes.now
        → RowsLead (block_of code block.now view)
        → TellsCommon (block_of code block.now view) limit.0 told.nodes.items) }
{
    let mut joins = own_joins(alloc, places, sizes, limit)?;
    let low = low_sizes(alloc, sizes, limit.0 as usize)?;
    let mut landings = row_joins(alloc, &low, block.handlers.as_slice())?;
    joins.append(&mut landings)?;
    joins_of(alloc, sizes.len(), joins)
}

/// Whether a slot, counted from the lowest, is the same at two places of a block, of which this is
/// told. It takes no memory.
pub fn in_common(joins: &Joins, slot: u64, one: Pc, other: Pc) -> bool
    requires forest { IsForest joins.now.nodes.items }
    ensures { (b : Block) (p : ℕ) → TellsCommon b p joins.now.nodes.items
        → MatchBool result (Common b p slot one.0 other.0)
        (Common b p slot one.0 other.0 → ⊥) }
{
    joins.is_joined(slot, one.0 as usize, other.0 as usize)
}
