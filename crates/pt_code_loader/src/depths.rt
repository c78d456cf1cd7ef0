//! How many slots lie at each place of a block.
ghost use Rattle.std.specs.Prelude.{◌≡◌, ℕ, Option, IfOk, OnOk, map};
ghost use Rattle.std.specs.Option.{unwrap_or};
ghost use Rattle.pt_code.specs.View.{Ins, IsView};
ghost use Rattle.sem_fits.specs.fits.Block.{Block, block_of};
ghost use Rattle.pt_verify_depths.specs.PlaceTable.{AreSizes};
ghost use Rattle.pt_code_loader.specs.Loaded.{HasDepths, IsShallow};

use pt_base::{Memory, Seq};
use pt_block_limits::is_too_deep;
use pt_code::{Code, CodeBlock};
use pt_verify_depths::{Sizes, sizes};
use std::alloc::Global;

fn depth_of(size: Option<u64>) -> Result<u32, Memory>
    ensures { IfOk result (λ depth. depth ≡ unwrap_or size 0) }
{
    match size {
        None => Ok(0),
        Some(size) => u32::try_from(size).map_err(|_| Memory),
    }
}

/// Sizes by their places, 0 where no way comes.
fn depths_in(alloc: Global, sizes: &[Option<u64>]) -> Result<Seq<u32>, Memory>
    ensures { IfOk result (λ depths. depths ≡ map (λ s. unwrap_or s 0) sizes.now) }
{
    let mut depths = Seq::new(alloc);
    for size in sizes {
        let depth = depth_of(*size)?;
        depths.push(depth)?;
    }
    Ok(depths)
}

/// The same, where no place is too deep.
fn shallow_depths(alloc: Global, sizes: &[Option<u64>]) -> Result<Seq<u32>, Memory>
    ensures depths { IfOk result (λ depths. depths ≡ map (λ s. unwrap_or s 0) sizes.now) }
    ensures shallow { OnOk result ((b : Block) → AreSizes b sizes.now → IsShallow b) }
{
    if is_too_deep(sizes) {
        return Err(Memory);
    }
    depths_in(alloc, sizes)
}

/// How many slots lie at each place to which some way comes. No place has more than an activation
/// holds.
///
/// # Errors
///
/// `Memory` for want of it, and where sizes disagree, as in no code of a script, or a place has more
/// than 16,777,216 slots.
pub fn depths(alloc: Global, code: &Code, block: &CodeBlock) -> Result<Seq<u32>, Memory>
    ensures depths { IfOk result (λ depths. (view : ℕ → Option Ins) → IsView block.now view
        → HasDepths (block_of code.now block.now view) depths) }
    ensures shallow { OnOk result ((view : ℕ → Option Ins) → IsView block.now view
        → IsShallow (block_of code.now block.now view)) }
{
    match sizes(alloc, code, block)? {
        Sizes::Agree(table) => shallow_depths(alloc, &table),
        Sizes::Meet(_) | Sizes::TooDeep(_, _) | Sizes::TooFew(_) => Err(Memory),
    }
}
