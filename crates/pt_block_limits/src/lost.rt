//! The least Leave that comes to nothing.
ghost use Rattle.std.specs.Prelude.{ℕ, ◌≡◌, Option, option_map, IfOk};
ghost use Rattle.pt_places.specs.PlaceTable.{HasPlaces};
ghost use Rattle.pt_sizes.specs.Flow.{entry};
ghost use Rattle.sem_fits.specs.fits.Block.{Block};
ghost use Rattle.sem_fits.specs.fits.Laws.{IsLaid};
ghost use Rattle.pt_verify_depths.specs.PlaceTable.{AreSizes};
ghost use Rattle.pt_block_limits.specs.Lost.{TellsLost, is_lost, left_to};

use pt_base::{Memory, Pc};
use pt_instr::Instr;
use pt_places::{Place, Places};

/// Where an instruction leaves a loop to.
fn left_to(place: Option<&Place>) -> Option<usize>
    ensures { result ≡ left_to (option_map (λ p. p.now) place.entry) }
{
    let Some(place) = place else {
        return None;
    };
    match place.instr {
        Instr::Leave(to) => Some(to.0 as usize),
        _ => None,
    }
}

/// Whether a place has a size from which one without is left to.
fn is_lost(sizes: &[Option<u64>], size: Option<u64>, target: Option<usize>) -> bool
    ensures { result ≡ is_lost sizes.now size target }
{
    match (size, target) {
        (Some(_), Some(target)) => match sizes.get(target) {
            None => true,
            Some(size) => size.is_none(),
        },
        _ => false,
    }
}

/// The least Leave whose place gets slots and whose target gets none, for the sizes of all places of
/// a block. It takes time linear in the block.
///
/// # Errors
///
/// `Memory` where the block has 2^32 bytes or more, as none of a code file has.
pub fn lost_leave(places: &Places, sizes: &[Option<u64>]) -> Result<Option<usize>, Memory>
    ensures { IfOk result (λ lost. (b : Block) → IsLaid b → HasPlaces b.at places.now
        → AreSizes b sizes.now → TellsLost b lost) }
{
    for at in 0..sizes.len() {
        let Ok(pc) = u32::try_from(at) else {
            return Err(Memory);
        };
        let target = left_to(places.at(Pc(pc)));
        if is_lost(sizes, sizes[at], target) {
            return Ok(Some(at));
        }
    }
    Ok(None)
}
