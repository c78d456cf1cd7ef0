//! The Leaves that slots hold up to a place.
ghost use Rattle.std.specs.Prelude.{◌≡◌, ◌+◌, ◌<◌, ℕ, [], length, min, Option, option_map, IfOk, MatchBool};
ghost use Rattle.pt_code.specs.declared.Code.{Code};
ghost use Rattle.pt_code.specs.View.{Ins, IsView};
ghost use Rattle.pt_places.specs.PlaceTable.{HasPlaces};
ghost use Rattle.sem_fits.specs.fits.Block.{block_of};
ghost use Rattle.pt_verify_depths.specs.PlaceTable.{AreSizesUpTo};
ghost use Rattle.pt_common_slots.specs.Common.{RowsLead};
ghost use Rattle.pt_step_graph.specs.Graph.{bundles_of};
ghost use Rattle.pt_takers.specs.Takers.{TellsTakers};
ghost use Rattle.pt_verify_leaves.specs.Held.{HasHeldUpTo};
ghost use Rattle.pt_verify.specs.Leaves.{HasLeave, is_leave};

use pt_base::{Memory, Pc};
use pt_budget::Budget;
use pt_code::CodeBlock;
use pt_common_slots::common_slots;
use pt_instr::Instr;
use pt_places::{Place, Places};
use pt_takers::Takers;
use pt_verify_leaves::{HeldLeaves, held_leaves};
use std::alloc::Global;

fn is_leave(place: Option<&Place>) -> bool
    ensures { result ≡ is_leave (option_map (λ p. p.now) place.entry) }
{
    match place {
        None => false,
        Some(place) => matches!(place.instr, Instr::Leave(_)),
    }
}

/// Whether a Leave stands at a limit or below, in a block of so many bytes.
fn has_leave(places: &Places, size: usize, limit: Pc) -> bool
    ensures { let end = min size (limit.0 + 1) in MatchBool result
        (HasLeave places.now end)
        (HasLeave places.now end → ⊥) }
{
    let end = size.min(limit.0 as usize + 1);
    for at in 0..end {
        if is_leave(places.at(Pc(at as u32))) {
            return true;
        }
    }
    false
}

/// That no EndFinally lets a Leave go on.
pub fn no_leaves(alloc: Global) -> HeldLeaves
    ensures bundles { bundles_of result.bundles ≡ [] }
    ensures held { result.held.items ≡ [] }
{
    HeldLeaves {
        bundles: Vec::new(alloc),
        held: Vec::new(alloc),
    }
}

/// The Leaves that each EndFinally at a limit or below lets go on, for the sizes that places get up
/// to there, where these agree and handler rows lead to places. Where no Leave stands there is none,
/// and slots in common aren't asked.
///
/// # Errors
///
/// `Memory` for want of it, where held Leaves take more steps than are left, as those of a code file
/// may, and where the block has 2^32 bytes or more, as none has.
pub fn held_up_to(
    alloc: Global,
    block: &CodeBlock,
    places: &Places,
    takers: &Takers,
    sizes: &[Option<u64>],
    limit: Pc,
    budget: &mut Budget,
) -> Result<HeldLeaves, Memory>
    ensures { IfOk result (λ told. (code : Code) (view : ℕ → Option Ins) → IsView block.now view
        → HasPlaces view places.now
        → (count : ℕ) → TellsTakers block.now.handlers count takers.now
        → length block.now.instructions < count
        → AreSizesUpTo (block_of code block.now view) limit.0 sizes.now
        → RowsLead (block_of code block.now view)
        → HasHeldUpTo (block_of code block.now view) limit.0 (bundles_of told.bundles)
        told.held.items) }
{
    if has_leave(places, block.instructions.len(), limit) {
        let joins = common_slots(alloc, block, places, sizes, limit)?;
        return held_leaves(alloc, places, takers, &joins, sizes, limit, budget);
    }
    Ok(no_leaves(alloc))
}
