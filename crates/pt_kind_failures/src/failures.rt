//! How a block fails by kinds.
ghost use Rattle.std.specs.Prelude.{◌≤◌, ℕ, length, Option, IfOk};
ghost use Rattle.std.specs.Bool.{Decides};
ghost use Rattle.pt_code.specs.declared.Code.{Code};
ghost use Rattle.pt_code.specs.View.{Ins, IsView};
ghost use Rattle.pt_places.specs.PlaceTable.{HasPlaces};
ghost use Rattle.sem_fits.specs.fits.Block.{block_of};
ghost use Rattle.pt_verify_depths.specs.PlaceTable.{AreSizesUpTo};
ghost use Rattle.pt_verify_depths.specs.Refusals.{CutsOf};
ghost use Rattle.pt_kind_flow.specs.Search.{IsFlow};
ghost use Rattle.pt_block_kinds.specs.Astray.{RowsLandOnPlaces};
ghost use Rattle.pt_block_kinds.specs.Drawing.{Draws};
ghost use Rattle.pt_refusals.specs.Told.{Clashes, TellsKinds, TellsLeast};
ghost use Rattle.pt_standing.specs.Names.{TellsDefaults};

use crate::lacking::any_lacks;
use pt_base::Memory;
use pt_block_kinds::BlockKinds;
use pt_block_tables::row_number;
use pt_code::{Code, CodeBlock};
use pt_kind_flow::Flow;
use pt_places::Places;
use pt_refusals::KindFailures;
use pt_standing::{Defaults, misplaced};

/// Whether a place gets two lists, or an instruction finds another kind or may not stand there.
fn clashes(
    code: &Code,
    defaults: &Defaults,
    block: &CodeBlock,
    places: &Places,
    sizes: &[Option<u64>],
    limit: usize,
    kinds: BlockKinds,
) -> Result<bool, Memory>
    requires flow { IsFlow kinds.flow }
    requires long { length block.now.instructions ≤ length sizes.now }
    ensures { IfOk result (λ clash. TellsDefaults code.now defaults.now
        → (view : ℕ → Option Ins) → IsView block.now view
        → HasPlaces view places.now
        → AreSizesUpTo (block_of code.now block.now view) limit sizes.now
        → Draws (block_of code.now block.now view) limit sizes.now kinds
        → Decides clash (Clashes (block_of code.now block.now view) limit)) }
{
    if kinds.meets(sizes) {
        return Ok(true);
    }
    let BlockKinds { flow, rows_from: _ } = kinds;
    let Flow {
        mut forest,
        table,
        ..
    } = flow;
    if any_lacks(code, places, &mut forest, &table, limit)? {
        return Ok(true);
    }
    misplaced(defaults, code, block, places, sizes, limit)
}

/// The least table row under which cuts differ, by the kinds up to a limit: for the sizes of places
/// up to there, where these agree. Rows are counted through marks, handlers and starts.
///
/// # Errors
///
/// `Memory` where there are 2^64 rows, as of no block.
pub fn least_cut(
    block: &CodeBlock,
    sizes: &[Option<u64>],
    kinds: &BlockKinds,
) -> Result<Option<usize>, Memory>
    requires flow { IsFlow kinds.now.flow }
    requires long { length block.now.instructions ≤ length sizes.now }
    ensures { IfOk result (λ row. (code : Code) (view : ℕ → Option Ins) → IsView block.now view
        → (limit : ℕ) → AreSizesUpTo (block_of code block.now view) limit sizes.now
        → Draws (block_of code block.now view) limit sizes.now kinds.now
        → TellsLeast (CutsOf (block_of code block.now view) limit) row) }
{
    let cut = kinds.first_cut(block.handlers.as_slice(), sizes)?;
    row_number(block.marks.len(), cut)
}

/// How a block fails by the kinds of its slots up to a limit, aside from Leaves and handler rows: for
/// the sizes of its places up to there, where these agree and the targets of handler rows are places.
/// For n places it looks at n lists, each in a few times O(log n) steps.
///
/// # Errors
///
/// `Memory` for want of it, and where the block has 2^32 bytes, handler rows or free names, as none
/// of a code file has.
pub fn kind_failures(
    code: &Code,
    defaults: &Defaults,
    block: &CodeBlock,
    places: &Places,
    sizes: &[Option<u64>],
    limit: usize,
    kinds: BlockKinds,
) -> Result<KindFailures, Memory>
    requires flow { IsFlow kinds.flow }
    requires long { length block.now.instructions ≤ length sizes.now }
    ensures { IfOk result (λ told. TellsDefaults code.now defaults.now
        → (view : ℕ → Option Ins) → IsView block.now view
        → HasPlaces view places.now
        → AreSizesUpTo (block_of code.now block.now view) limit sizes.now
        → RowsLandOnPlaces (block_of code.now block.now view)
        → Draws (block_of code.now block.now view) limit sizes.now kinds
        → TellsKinds (block_of code.now block.now view) limit told) }
{
    let strays = kinds.strays(code, places, sizes, limit)?;
    let clash = clashes(code, defaults, block, places, sizes, limit, kinds)?;
    Ok(KindFailures { clash, strays })
}
