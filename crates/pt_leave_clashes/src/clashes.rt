//! A Leave is asked at its own place alone.
ghost use Rattle.std.specs.Prelude.{◌≡◌, ◌+◌, min, length, is_some, option_map, MatchBool};
ghost use Rattle.std.specs.Bool.{Decides};
ghost use Rattle.sem_fits.specs.fits.Block.{Block};
ghost use Rattle.sem_fits.specs.fits.Steps.{is_prefix};
ghost use Rattle.pt_places.specs.PlaceTable.{HasPlaces};
ghost use Rattle.pt_sizes.specs.Flow.{entry};
ghost use Rattle.pt_verify_depths.specs.PlaceTable.{AreSizesUpTo};
ghost use Rattle.pt_verify_depths.specs.Refusals.{LeaveLacks};
ghost use Rattle.pt_kinds.specs.Forest.{IsForest, IsInside, list_at};
ghost use Rattle.pt_kind_flow.specs.Search.{IsFlow};
ghost use Rattle.pt_block_kinds.specs.Graph.{IsSeen};
ghost use Rattle.pt_block_kinds.specs.Drawing.{Draws};
ghost use Rattle.pt_common_slots.specs.Common.{RowsLead};
ghost use Rattle.pt_refusals.specs.Told.{Clashes, LeaveClashes};
ghost use Rattle.pt_leave_clashes.specs.Others.{AnyDiffers, leave_differs, place_differs};

use pt_base::Pc;
use pt_block_kinds::BlockKinds;
use pt_instr::Instr;
use pt_kinds::Forest;
use pt_places::{Place, Places};

/// Whether one list of kinds begins with another.
fn begins(forest: &Forest, list: usize, beginning: usize) -> bool
    requires forest { IsForest forest.now }
    requires inside { IsInside forest.now list }
    requires other { IsInside forest.now beginning }
    ensures { result ≡ is_prefix (list_at forest.now beginning) (list_at forest.now list) }
{
    forest.agrees(beginning, list, forest.len(beginning))
}

fn has_size(sizes: &[Option<u64>], at: usize) -> bool
    ensures { result ≡ is_some (entry sizes.now at) }
{
    match sizes.get(at) {
        Some(Some(_)) => true,
        _ => false,
    }
}

/// Whether an instruction is a Leave whose target has a list with which that of its place doesn't
/// begin.
fn leave_differs(kinds: &BlockKinds, sizes: &[Option<u64>], at: usize, instr: &Instr) -> bool
    requires { IsFlow kinds.now.flow }
    ensures { result ≡ leave_differs kinds.now.flow sizes.now at instr.now }
{
    let Instr::Leave(to) = *instr else {
        return false;
    };
    let to = to.0 as usize;
    if !has_size(sizes, to) {
        return false;
    }
    match (kinds.flow.longest(at), kinds.flow.longest(to)) {
        (Some(here), Some(there)) => !begins(&kinds.flow.forest, here, there),
        _ => false,
    }
}

fn place_differs(
    kinds: &BlockKinds,
    sizes: &[Option<u64>],
    at: usize,
    place: Option<&Place>,
) -> bool
    requires { IsFlow kinds.now.flow }
    ensures { result ≡ place_differs kinds.now.flow sizes.now at
        (option_map (λ p. p.now) place.entry) }
{
    match place {
        None => false,
        Some(place) => leave_differs(kinds, sizes, at, &place.instr),
    }
}

/// Whether a Leave at the limit or below does so.
fn any_differs(places: &Places, sizes: &[Option<u64>], kinds: &BlockKinds, limit: Pc) -> bool
    requires { IsFlow kinds.now.flow }
    ensures { let end = min (length sizes.now) (limit.0 + 1) in MatchBool result
        (AnyDiffers kinds.now.flow places.now sizes.now end)
        (AnyDiffers kinds.now.flow places.now sizes.now end → ⊥) }
{
    let end = sizes.len().min(limit.0 as usize + 1);
    for at in 0..end {
        if place_differs(kinds, sizes, at, places.at(Pc(at as u32))) {
            return true;
        }
    }
    false
}

/// Whether a Leave leaves other kinds than its target has, from its own place, under each handler
/// row that takes it, and wherever an EndFinally lets it go on (Language Reference 7.9, 7.10,
/// 8.4.4): through the instructions at the limit and below, of a block of which nothing else clashes
/// there and no Leave leaves too few slots. For n places it takes time O(n log n), and no memory.
pub fn leaves_clash(places: &Places, sizes: &[Option<u64>], kinds: &BlockKinds, limit: Pc) -> bool
    requires { IsFlow kinds.now.flow }
    ensures { (b : Block) → HasPlaces b.at places.now → Draws b limit.0 sizes.now kinds.now
        → IsSeen b (length sizes.now) → AreSizesUpTo b limit.0 sizes.now → RowsLead b
        → (Clashes b limit.0 → ⊥) → (LeaveLacks b limit.0 → ⊥)
        → Decides result (LeaveClashes b limit.0) }
{
    any_differs(places, sizes, kinds, limit)
}
