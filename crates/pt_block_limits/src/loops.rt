//! The least place of a silent loop, or ranks.
ghost use Rattle.std.specs.Prelude.{ℕ, ◌≡◌, Option, option_map, IfOk};
ghost use Rattle.pt_code.specs.declared.Code.{Code};
ghost use Rattle.pt_code.specs.View.{Ins, IsView};
ghost use Rattle.pt_places.specs.PlaceTable.{HasPlaces};
ghost use Rattle.pt_sizes.specs.Flow.{entry};
ghost use Rattle.sem_fits.specs.fits.Block.{block_of};
ghost use Rattle.pt_verify_depths.specs.PlaceTable.{AreSizes};
ghost use Rattle.pt_step_graph.specs.Graph.{bundles_of};
ghost use Rattle.pt_block_limits.specs.Exits.{HasExits, exits_at, exits_of, jump_of};
ghost use Rattle.pt_block_limits.specs.Limits.{HasHeld, TellsLoops};

use pt_base::{Memory, Pc};
use pt_code::CodeBlock;
use pt_instr::{Instr, effect};
use pt_places::{Place, Places};
use pt_step_graph::{Cycles, Exits, cycles_of_steps};
use std::alloc::Global;

/// The place that an instruction names, if it may go there.
fn jump_of(instr: &Instr) -> Option<Pc>
    ensures { option_map (λ t. t.0) result ≡ jump_of instr.now }
{
    match *instr {
        Instr::Next(to)
        | Instr::Jump(to)
        | Instr::JumpIf(to)
        | Instr::JumpUnless(to)
        | Instr::JumpIfKeep(to)
        | Instr::JumpUnlessKeep(to)
        | Instr::Leave(to) => Some(to),
        _ => None,
    }
}

fn number_of(place: Option<Pc>) -> Option<usize>
    ensures { result ≡ option_map (λ t. t.0) place }
{
    match place {
        None => None,
        Some(place) => Some(place.0 as usize),
    }
}

fn exits_of(instr: &Instr, next: Pc, held: Option<usize>) -> Exits
    ensures { result ≡ exits_of instr.now next.0 held }
{
    let effect = effect(instr, 0);
    Exits {
        onward: match effect.gives {
            None => None,
            Some(_) => Some(next.0 as usize),
        },
        aside: number_of(jump_of(instr)),
        again: effect.again,
        held,
    }
}

fn exits_at(place: Option<&Place>, size: Option<u64>, held: Option<usize>) -> Option<Exits>
    ensures { result ≡ exits_at (option_map (λ p. p.now) place.entry) size held }
{
    let Some(place) = place else {
        return None;
    };
    match (size, place.mark) {
        (Some(_), None) => Some(exits_of(&place.instr, place.next, held)),
        _ => None,
    }
}

fn held_at(held: &[Option<usize>], at: usize) -> Option<usize>
    ensures { result ≡ entry held.now at }
{
    match held.get(at) {
        None => None,
        Some(held) => *held,
    }
}

/// Where the instructions go on to at which no act begins and whose places have sizes.
fn exits_table(
    alloc: Global,
    places: &Places,
    sizes: &[Option<u64>],
    held: &[Option<usize>],
) -> Result<Vec<Option<Exits>>, Memory>
    ensures { IfOk result (λ table. HasExits places.now sizes.now held.now table.items) }
{
    let mut table = Vec::new(alloc);
    for at in 0..sizes.len() {
        let Ok(pc) = u32::try_from(at) else {
            return Err(Memory);
        };
        table.push(exits_at(places.at(Pc(pc)), sizes[at], held_at(held, at)))?;
    }
    Ok(table)
}

/// The least place of a block that lies on a cycle of steps on which no act begins, or numbers that
/// fall along each walk on which none begins: for the sizes of all places of a block, and what its
/// places let go on of Leaves that are held. For n places and r handler rows it takes time and
/// memory O((n + r) log n).
///
/// # Errors
///
/// `Memory` for want of it, and where the block has 2^32 bytes or more, as none of a code file has.
pub fn silent_loops(
    alloc: Global,
    block: &CodeBlock,
    places: &Places,
    sizes: &[Option<u64>],
    bundles: Vec<Vec<usize>>,
    held: &[Option<usize>],
) -> Result<Cycles, Memory>
    ensures { IfOk result (λ told. (code : Code) (view : ℕ → Option Ins) → IsView block.now view
        → HasPlaces view places.now → AreSizes (block_of code block.now view) sizes.now
        → HasHeld (block_of code block.now view) (bundles_of bundles) held.now
        → TellsLoops (block_of code block.now view) told) }
{
    let exits = exits_table(alloc, places, sizes, held)?;
    cycles_of_steps(alloc, exits, bundles, block.handlers.as_slice())
}
