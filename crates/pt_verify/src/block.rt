//! What refuses a block of a code.
ghost use Rattle.std.specs.Prelude.{ℕ, ◌≤◌, length, Option, option_map, IfOk};
ghost use Rattle.pt_code.specs.View.{Ins, IsView};
ghost use Rattle.sem_fits.specs.fits.Block.{Block, block_of};
ghost use Rattle.pt_places.specs.PlaceTable.{HasPlaces};
ghost use Rattle.sem_fits.specs.fits.Agreement.{Agrees};
ghost use Rattle.sem_fits.specs.fits.Fits.{TablesHold};
ghost use Rattle.pt_verify_depths.specs.PlaceTable.{AreSizes};
ghost use Rattle.pt_step_graph.specs.Graph.{bundles_of};
ghost use Rattle.pt_block_limits.specs.Limits.{HasHeld, TellsLoops};
ghost use Rattle.pt_standing.specs.Names.{TellsDefaults};
ghost use Rattle.pt_refusals.specs.Laws.{TellsBlock};
ghost use Rattle.pt_refusals.specs.Verdicts.{misfit_of};
ghost use Rattle.pt_verify.specs.Probing.{TellsOf, last_of};

use crate::probe::{Answer, BlockProbe, last_of};
use pt_base::{Memory, Pc};
use pt_block_limits::{Cycles, is_too_deep, lost_leave, silent_loops};
use pt_block_tables::first_bad_row;
use pt_budget::Budget;
use pt_code::{Code, CodeBlock};
use pt_places::Places;
use pt_refusals::{Refusal, first_refusal, refusal_at, refusal_behind, refusal_up_to};
use pt_standing::Defaults;
use pt_takers::Takers;
use pt_verify_depths::{Sizes, sizes};
use pt_verify_leaves::HeldLeaves;
use std::alloc::Global;

/// The least place of a silent loop, or ranks, for the Leaves that are let go on.
fn loops_of(
    probe: &BlockProbe<'_>,
    sizes: &[Option<u64>],
    told: HeldLeaves,
) -> Result<Cycles, Memory>
    ensures { IfOk result (λ loops. (b : Block) → TellsOf probe.now b → AreSizes b sizes.now
        → HasHeld b (bundles_of told.bundles) told.held.items → TellsLoops b loops) }
{
    let HeldLeaves { bundles, held } = told;
    silent_loops(
        probe.alloc,
        probe.block,
        probe.places,
        sizes,
        bundles,
        &held,
    )
}

/// What refuses a block that agrees, for the sizes of its places and the Leaves that are let go on.
fn refusal_of_agreeing(
    probe: &BlockProbe<'_>,
    sizes: &[Option<u64>],
    held: HeldLeaves,
) -> Result<Option<Refusal>, Memory>
    ensures { IfOk result (λ refusal. (b : Block) → TellsOf probe.now b → AreSizes b sizes.now
        → HasHeld b (bundles_of held.bundles) held.held.items
        → Agrees b b.size → TellsBlock b (option_map misfit_of refusal)) }
{
    let lost = lost_leave(probe.places, sizes)?;
    let loops = loops_of(probe, sizes, held)?;
    Ok(refusal_behind(lost, is_too_deep(sizes), &loops))
}

/// What refuses a block whose sizes agree, for these: it is asked of its end, and where it doesn't
/// agree there, of the places before. The steps that are left where it agrees are told.
fn refusal_of_sized(
    probe: &BlockProbe<'_>,
    sizes: &[Option<u64>],
    left: &mut Budget,
) -> Result<Option<Refusal>, Memory>
    requires { length probe.now.block.now.instructions
        ≤ last_of probe.now.sizes.now (length probe.now.block.now.instructions) }
    ensures { IfOk result (λ refusal. (b : Block) → TellsOf probe.now b → AreSizes b sizes.now
        → TellsBlock b (option_map misfit_of refusal)) }
{
    let last = probe.block.instructions.len();
    let Ok(end) = u32::try_from(last) else {
        return Err(Memory);
    };
    let answer = probe.by_sizes(Pc(end), sizes)?;
    let Answer {
        failures,
        held,
        budget,
    } = answer;
    match refusal_at(last, &failures) {
        None => {
            *left = budget;
            refusal_of_agreeing(probe, sizes, held)
        }
        Some(refusal) => {
            drop(held);
            Ok(Some(refusal_up_to(probe, last, refusal)?))
        }
    }
}

/// What refuses a block whose sizes don't agree.
fn refusal_of_unsized(probe: &BlockProbe<'_>) -> Result<Option<Refusal>, Memory>
    ensures { IfOk result (λ refusal. (b : Block) → TellsOf probe.now b
        → TellsBlock b (option_map misfit_of refusal)) }
{
    let last = last_of(probe.sizes, probe.block.instructions.len());
    match first_refusal(probe, last)? {
        Some(refusal) => Ok(Some(refusal)),
        None => Err(Memory),
    }
}

/// What refuses a block whose tables hold.
fn refusal_by_probe(probe: &BlockProbe<'_>, left: &mut Budget) -> Result<Option<Refusal>, Memory>
    ensures { IfOk result (λ refusal. (b : Block) → TellsOf probe.now b
        → TellsBlock b (option_map misfit_of refusal)) }
{
    match probe.sizes {
        Sizes::Agree(sizes) => refusal_of_sized(probe, sizes, left),
        _ => refusal_of_unsized(probe),
    }
}

/// What refuses a block whose tables hold, with its places.
fn refusal_of_laid(
    alloc: Global,
    code: &Code,
    defaults: &Defaults,
    block: &CodeBlock,
    places: &Places,
    budget: &mut Budget,
) -> Result<Option<Refusal>, Memory>
    ensures { IfOk result (λ refusal. TellsDefaults code.now defaults.now
        → (view : ℕ → Option Ins) → IsView block.now view → HasPlaces view places.now
        → TablesHold (block_of code.now block.now view)
        → TellsBlock (block_of code.now block.now view) (option_map misfit_of refusal)) }
{
    let Some(count) = block.instructions.len().checked_add(1) else {
        return Err(Memory);
    };
    let takers = Takers::build(alloc, block.handlers.as_slice(), count)?;
    let sizes = sizes(alloc, code, block)?;
    let probe = BlockProbe {
        alloc,
        code,
        defaults,
        block,
        places,
        takers: &takers,
        sizes: &sizes,
        budget: *budget,
    };
    refusal_by_probe(&probe, budget)
}

/// What refuses a block of a code, or that it fits, where it is told of its blocks and lists. Most of
/// the time goes to the flow of kinds, slots in common and held Leaves, which are asked once where
/// the block agrees, and else once more for each halving of its bytes. A block that agrees takes the
/// steps of its held Leaves from those that are left; of another each asking may take all of them.
///
/// # Errors
///
/// `Memory` for want of it, where held Leaves take more steps than are left, as those of a code file
/// may, and where the block has 2^32 bytes, handler rows or free names, as none has.
pub fn block_refusal(
    alloc: Global,
    code: &Code,
    defaults: &Defaults,
    block: &CodeBlock,
    budget: &mut Budget,
) -> Result<Option<Refusal>, Memory>
    ensures { IfOk result (λ refusal. TellsDefaults code.now defaults.now
        → (view : ℕ → Option Ins) → IsView block.now view
        → TellsBlock (block_of code.now block.now view) (option_map misfit_of refusal)) }
{
    let places = Places::make(alloc, block)?;
    match first_bad_row(&places, block)? {
        Some(row) => Ok(Some(Refusal::Table(row))),
        None => refusal_of_laid(alloc, code, defaults, block, &places, budget),
    }
}
