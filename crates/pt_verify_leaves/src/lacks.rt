//! Whether a Leave has fewer slots than its target.
ghost use Rattle.std.specs.Prelude.{◌≡◌, ◌<◌, ◌-◌, ℕ, List, length, Option, option_map, IfOk};
ghost use Rattle.std.specs.List.{list_any};
ghost use Rattle.std.specs.Bool.{Decides};
ghost use Rattle.pt_code.specs.declared.Code.{Code};
ghost use Rattle.pt_code.specs.declared.CodeBlock.{CodeBlock};
ghost use Rattle.pt_code.specs.View.{Ins, IsView};
ghost use Rattle.pt_ranges.specs.declared.handlers.Handler.{Handler};
ghost use Rattle.pt_places.specs.PlaceTable.{HasPlaces};
ghost use Rattle.pt_sizes.specs.Flow.{entry};
ghost use Rattle.sem_fits.specs.fits.Block.{block_of};
ghost use Rattle.pt_verify_depths.specs.PlaceTable.{AreSizesUpTo};
ghost use Rattle.pt_verify_depths.specs.Refusals.{LeaveLacks};
ghost use Rattle.pt_common_slots.specs.Common.{RowsLead};
ghost use Rattle.pt_step_graph.specs.Graph.{bundles_of};
ghost use Rattle.pt_takers.specs.Takers.{TellsTakers};
ghost use Rattle.pt_verify_leaves.specs.Held.{HasHeldUpTo};
ghost use Rattle.pt_verify_leaves.specs.Lacks.{few_for, is_few, lacks_at, targets_at};
ghost use Rattle.pt_verify_leaves.specs.Onto.{KnowsAt};

use crate::held::HeldLeaves;
use crate::listing::pc_of;
use pt_base::{Memory, Pc};
use pt_instr::Instr;
use pt_places::{Place, Places};
use pt_ranges::Handler;
use pt_takers::Takers;

fn size_at(sizes: &[Option<u64>], at: usize) -> Option<u64>
    ensures { result ≡ entry sizes.now at }
{
    match sizes.get(at) {
        None => None,
        Some(size) => *size,
    }
}

/// Whether so many slots, or those that a row leaves of them, are fewer than lie at the target.
fn is_few(there: Option<u64>, low: u64, row: Option<Handler>) -> bool
    ensures { result ≡ is_few there low row }
{
    match (there, row) {
        (None, _) => false,
        (Some(there), None) => low < there,
        (Some(there), Some(row)) => low.min(row.depth as u64) < there,
    }
}

/// Whether a Leave for the target that goes on from a place with so many slots lacks some.
fn few_for(sizes: &[Option<u64>], takers: &Takers, pc: Pc, low: u64, target: Pc) -> bool
    ensures { (rows : List Handler) (count : ℕ) → TellsTakers rows count takers.now → pc.0 < count
        → result ≡ few_for rows sizes.now pc.0 low target.0 }
{
    is_few(
        size_at(sizes, target.0 as usize),
        low,
        takers.first(pc, target),
    )
}

/// The same of any of several targets.
fn any_few(
    sizes: &[Option<u64>],
    takers: &Takers,
    pc: Pc,
    low: u64,
    targets: &[usize],
) -> Result<bool, Memory>
    ensures { IfOk result (λ few. (rows : List Handler) (count : ℕ)
        → TellsTakers rows count takers.now → pc.0 < count
        → few ≡ list_any (λ t. few_for rows sizes.now pc.0 low t) targets.now) }
{
    for number in 0..targets.len() {
        let target = pc_of(targets[number])?;
        if few_for(sizes, takers, pc, low, target) {
            return Ok(true);
        }
    }
    Ok(false)
}

/// The same of what an EndFinally lets go on.
fn held_few(
    sizes: &[Option<u64>],
    takers: &Takers,
    pc: Pc,
    low: u64,
    told: &HeldLeaves,
) -> Result<bool, Memory>
    ensures { IfOk result (λ few. (rows : List Handler) (count : ℕ)
        → TellsTakers rows count takers.now → pc.0 < count
        → few ≡ list_any (λ t. few_for rows sizes.now pc.0 low t)
        (targets_at (bundles_of told.now.bundles) (entry told.now.held.items pc.0))) }
{
    let at = pc.0 as usize;
    if at >= told.held.len() {
        return Ok(false);
    }
    let Some(bundle) = told.held[at] else {
        return Ok(false);
    };
    if bundle >= told.bundles.len() {
        return Ok(false);
    }
    any_few(sizes, takers, pc, low, &told.bundles[bundle])
}

/// Whether a Leave that goes on from a place lacks slots.
fn lacks_at(
    sizes: &[Option<u64>],
    takers: &Takers,
    pc: Pc,
    place: Option<&Place>,
    size: Option<u64>,
    told: &HeldLeaves,
) -> Result<bool, Memory>
    ensures { IfOk result (λ lacks. (rows : List Handler)
        → KnowsAt pc.0 (option_map (λ p. p.now) place.entry) rows takers.now
        → lacks ≡ lacks_at rows sizes.now pc.0 (option_map (λ p. p.now) place.entry) size
        (targets_at (bundles_of told.now.bundles) (entry told.now.held.items pc.0))) }
{
    let Some(place) = place else {
        return Ok(false);
    };
    let Some(size) = size else {
        return Ok(false);
    };
    match place.instr {
        Instr::Leave(target) => Ok(few_for(sizes, takers, pc, size, target)),
        Instr::EndFinally => held_few(sizes, takers, pc, size.saturating_sub(1), told),
        _ => Ok(false),
    }
}

/// Whether a Leave has fewer slots than its target, by the instructions at a limit and below: where
/// it goes on, or under a row that takes it. It takes no memory, and the time of `held_leaves`: from
/// each EndFinally of a class it looks at each target of the class, as that did.
///
/// # Errors
///
/// `Memory` where the block has 2^32 bytes or more, as none of a code file has.
pub fn leaves_lack(
    places: &Places,
    takers: &Takers,
    sizes: &[Option<u64>],
    told: &HeldLeaves,
    limit: Pc,
) -> Result<bool, Memory>
    ensures { IfOk result (λ lacks. (code : Code) (block : CodeBlock) (view : ℕ → Option Ins)
        → IsView block view → HasPlaces view places.now
        → (count : ℕ) → TellsTakers block.handlers count takers.now
        → length block.instructions < count
        → AreSizesUpTo (block_of code block view) limit.0 sizes.now
        → RowsLead (block_of code block view)
        → HasHeldUpTo (block_of code block view) limit.0 (bundles_of told.now.bundles)
        told.now.held.items
        → Decides lacks (LeaveLacks (block_of code block view) limit.0)) }
{
    let end = sizes.len().min(limit.0 as usize + 1);
    for at in 0..end {
        let pc = pc_of(at)?;
        if lacks_at(sizes, takers, pc, places.at(pc), sizes[at], told)? {
            return Ok(true);
        }
    }
    Ok(false)
}
