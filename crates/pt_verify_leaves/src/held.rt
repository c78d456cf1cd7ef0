//! For each EndFinally the Leaves that it lets go on.
ghost use Rattle.std.specs.Prelude.{◌≡◌, ℕ, ◌<◌, ◌+◌, List, length, Option, IfOk};
ghost use Rattle.pt_code.specs.declared.Code.{Code};
ghost use Rattle.pt_code.specs.declared.CodeBlock.{CodeBlock};
ghost use Rattle.pt_code.specs.View.{Ins, IsView};
ghost use Rattle.pt_ranges.specs.declared.handlers.Handler.{Handler};
ghost use Rattle.pt_places.specs.PlaceTable.{HasPlaces};
ghost use Rattle.sem_fits.specs.fits.Block.{block_of};
ghost use Rattle.pt_verify_depths.specs.PlaceTable.{AreSizesUpTo};
ghost use Rattle.pt_joins.specs.Joins.{IsForest};
ghost use Rattle.pt_common_slots.specs.Common.{RowsLead, TellsCommon};
ghost use Rattle.pt_step_graph.specs.Graph.{bundles_of};
ghost use Rattle.pt_takers.specs.Takers.{TellsTakers};
ghost use Rattle.pt_verify_leaves.specs.Held.{HasHeldUpTo};
ghost use Rattle.pt_verify_leaves.specs.Onto.{Knows};
ghost use Rattle.pt_verify_leaves.specs.Search.{HasSearched};

use crate::gathering::gathered;
use crate::holding::Holding;
use crate::listing::{ended, members, seeds};
use pt_base::{Memory, Pc};
use pt_budget::Budget;
use pt_closure::closure;
use pt_joins::Joins;
use pt_places::Places;
use pt_takers::Takers;
use pt_top_slots::top_slots;
use std::alloc::Global;

/// The targets of Leaves in bundles, and for each place of an EndFinally the bundle of those that
/// it lets go on.
#[derive(Debug, Drop)]
pub struct HeldLeaves {
    pub bundles: Vec<Vec<usize>>,
    pub held: Vec<Option<usize>>,
}

/// The same over the classes of topmost slots.
fn search(
    alloc: Global,
    places: &Places,
    takers: &Takers,
    classes: &[Option<usize>],
    count: usize,
    sizes: &[Option<u64>],
    end: usize,
    budget: &mut Budget,
) -> Result<HeldLeaves, Memory>
    requires { end < length sizes.now + 1 }
    ensures { IfOk result (λ told. (rows : List Handler) → Knows places.now rows takers.now
        → HasSearched places.now rows classes.now count sizes.now end
        (bundles_of told.bundles) told.held.items) }
{
    let seeds = seeds(alloc, places, takers, classes, sizes, end)?;
    let listed = members(alloc, places, classes, end)?;
    let holding = Holding {
        places,
        takers,
        classes,
        members: gathered(alloc, count, &listed)?,
    };
    let found = closure(alloc, &holding, seeds, budget)?;
    Ok(HeldLeaves {
        bundles: gathered(alloc, count, &found)?,
        held: ended(alloc, places, classes, end)?,
    })
}

/// For each EndFinally at a limit and below the targets of the Leaves that its slot may hold, for
/// the slots in common and the sizes of a block up to there (Language Reference 8.4.4). A Leave
/// goes from the class of the slot of the row that takes it to that of the row that takes it next,
/// and by Exits.
///
/// For n places it takes time O((n + w) log^2 n) and memory O(n + w), where w is the sum, over all
/// pairs of a target and a class that may hold a Leave for it, of the EndFinally and Exit places of
/// the class. So w may be n^2: where finally parts stand around one another and each Leave in the
/// innermost leaves another loop. For m Leaves it takes m + 2w steps at most.
///
/// # Errors
///
/// `Memory` for want of it, where fewer steps are left, and where the block has 2^32 bytes or more,
/// as none of a code file has.
pub fn held_leaves(
    alloc: Global,
    places: &Places,
    takers: &Takers,
    joins: &Joins,
    sizes: &[Option<u64>],
    limit: Pc,
    budget: &mut Budget,
) -> Result<HeldLeaves, Memory>
    requires { IsForest joins.now.nodes.items }
    ensures { IfOk result (λ told. (code : Code) (block : CodeBlock) (view : ℕ → Option Ins)
        → IsView block view → HasPlaces view places.now
        → (count : ℕ) → TellsTakers block.handlers count takers.now
        → length block.instructions < count
        → AreSizesUpTo (block_of code block view) limit.0 sizes.now
        → RowsLead (block_of code block view)
        → TellsCommon (block_of code block view) limit.0 joins.now.nodes.items
        → HasHeldUpTo (block_of code block view) limit.0 (bundles_of told.bundles)
        told.held.items) }
{
    let tops = top_slots(alloc, joins, sizes)?;
    let end = sizes.len().min(limit.0 as usize + 1);
    search(
        alloc,
        places,
        takers,
        &tops.classes,
        tops.count,
        sizes,
        end,
        budget,
    )
}
