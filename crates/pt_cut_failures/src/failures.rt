//! The first handler row under which cuts differ.
ghost use Rattle.std.specs.Prelude.{◌<◌, ◌+◌, ℕ, Option, IfOk, MatchBool, length};
ghost use Rattle.pt_code.specs.View.{Ins, IsView};
ghost use Rattle.pt_places.specs.PlaceTable.{HasPlaces};
ghost use Rattle.sem_fits.specs.fits.Block.{block_of};
ghost use Rattle.pt_verify_depths.specs.PlaceTable.{NumberTooDeep};
ghost use Rattle.pt_verify_depths.specs.Sizes.{SizesMeet};
ghost use Rattle.pt_kind_flow.specs.Search.{IsFlow};
ghost use Rattle.pt_block_kinds.specs.Told.{IsShort};
ghost use Rattle.pt_cut_failures.specs.Cuts.{TellsCutBelow, TellsShortBelow};

use crate::graph::cut_flow;
use pt_base::Memory;
use pt_block_kinds::sum;
use pt_code::{Code, CodeBlock};
use pt_kind_flow::Flow;
use pt_places::Places;
use pt_ranges::Handler;
use pt_single_sizes::single_sizes;
use std::alloc::Global;

/// Whether the lists that come to a vertex have fewer slots in common than so many.
fn is_short(flow: &Flow, vertex: usize, count: u64) -> bool
    requires { IsFlow flow.now }
    ensures { MatchBool result (IsShort flow.now vertex count)
        (IsShort flow.now vertex count → ⊥) }
{
    match flow.longest(vertex) {
        None => false,
        Some(list) => flow.forest.len(list) < count,
    }
}

/// The first of so many rows whose vertex has fewer slots than the row leaves.
fn short_row(
    flow: &Flow,
    count: usize,
    rows: &[Handler],
    asked: usize,
) -> Result<Option<usize>, Memory>
    requires { IsFlow flow.now }
    ensures { IfOk result (λ row. TellsShortBelow flow.now count rows.now asked row) }
{
    for at in 0..rows.len() {
        if at >= asked {
            return Ok(None);
        }
        if is_short(flow, sum(count, at)?, rows[at].depth as u64) {
            return Ok(Some(at));
        }
    }
    Ok(None)
}

/// The first of so many handler rows under which cuts differ, up to a limit where no place gets two
/// sizes. None of these rows may be too deep; others may be, and instructions may have too few
/// slots. For n bytes and r handler rows it takes memory of O((n + r) log n), and O(log (n + r))
/// times that for its time beside that of the flow of kinds.
///
/// # Errors
///
/// `Memory` for want of it, and where the block has 2^32 bytes, handler rows or free names, as none
/// of a code file has.
pub fn first_differing(
    alloc: Global,
    code: &Code,
    block: &CodeBlock,
    places: &Places,
    limit: usize,
    rows: usize,
) -> Result<Option<usize>, Memory>
    ensures { IfOk result (λ row. (view : ℕ → Option Ins) → IsView block.now view
        → HasPlaces view places.now
        → (SizesMeet (block_of code.now block.now view) limit → ⊥)
        → ((n : ℕ) → n < rows
        → NumberTooDeep (block_of code.now block.now view) limit n → ⊥)
        → TellsCutBelow (block_of code.now block.now view) limit rows row) }
{
    let sizes = single_sizes(alloc, code, block, places, limit)?;
    let flow = cut_flow(alloc, code, block, places, &sizes, limit)?;
    short_row(&flow, sizes.len(), block.handlers.as_slice(), rows)
}
