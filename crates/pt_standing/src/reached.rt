//! Whether an instruction that is reached may not stand in its block.
ghost use Rattle.std.specs.Prelude.{◌≡◌, ℕ, Option, option_map, IfOk};
ghost use Rattle.std.specs.Bool.{Decides};
ghost use Rattle.pt_code.specs.View.{Ins};
ghost use Rattle.pt_places.specs.PlaceTable.{HasPlaces};
ghost use Rattle.sem_fits.specs.fits.Block.{block_of, links_of};
ghost use Rattle.pt_verify_depths.specs.PlaceTable.{AreSizesUpTo};
ghost use Rattle.pt_standing.specs.Names.{TellsDefaults};
ghost use Rattle.pt_standing.specs.Misplaced.{Misplaced, is_misplaced};

use crate::defaults::Defaults;
use crate::stand::may_stand;
use pt_base::{Memory, Pc};
use pt_code::{BlockKind, Code, CodeBlock};
use pt_places::{Place, Places};

/// Whether a place that has a size has an instruction that may not stand there.
fn is_misplaced(
    defaults: &Defaults,
    code: &Code,
    kind: BlockKind,
    place: Option<&Place>,
    size: Option<u64>,
) -> Result<bool, Memory>
    ensures { IfOk result (λ told. TellsDefaults code.now defaults.now
        → told ≡ is_misplaced kind (links_of code.now) (option_map (λ p. p.now) place.entry) size) }
{
    match (place, size) {
        (Some(place), Some(_)) => Ok(!may_stand(defaults, code, kind, &place.instr)?),
        _ => Ok(false),
    }
}

/// Whether an instruction that is reached may not stand in the block, for what is told of the names
/// of the code and for the sizes that places get through the instructions at a limit and below. For
/// n places it takes time O(n log n).
///
/// # Errors
///
/// `Memory` where the block has 2^32 bytes or more, or isn't one of the code.
pub fn misplaced(
    defaults: &Defaults,
    code: &Code,
    block: &CodeBlock,
    places: &Places,
    sizes: &[Option<u64>],
    limit: usize,
) -> Result<bool, Memory>
    ensures { IfOk result (λ told. TellsDefaults code.now defaults.now → (view : ℕ → Option Ins)
        → HasPlaces view places.now
        → AreSizesUpTo (block_of code.now block.now view) limit sizes.now
        → Decides told (Misplaced (block_of code.now block.now view) limit)) }
{
    for at in 0..sizes.len() {
        if limit < at {
            return Ok(false);
        }
        let Ok(pc) = u32::try_from(at) else {
            return Err(Memory);
        };
        if is_misplaced(defaults, code, block.kind, places.at(Pc(pc)), sizes[at])? {
            return Ok(true);
        }
    }
    Ok(false)
}
