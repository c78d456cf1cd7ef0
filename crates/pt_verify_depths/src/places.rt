//! The places of a block as sizes see them.
ghost use Rattle.std.specs.Prelude.{◌≡◌, ◌<◌, ◌^◌, ℕ, length, option_map, Option, IfOk};
ghost use Rattle.pt_code.specs.View.{Ins, IsView};
ghost use Rattle.sem_code.specs.slots.BlockObject.{target_of};
ghost use Rattle.sem_fits.specs.fits.Block.{block_of, captured, effect, kinds_at_start, links_of};
ghost use Rattle.pt_verify_depths.specs.PlaceTable.{HasPlaces, TellsSizes, TellsSizesUpTo, aside_given, place_of, target_or};

use pt_base::{BlockId, Memory, Pc};
use pt_code::{BlockKind, Code, CodeBlock};
use pt_instr::{Instr, Kinds, decode, effect};
use pt_partial_sizes::sizes_below;
use pt_sizes::{Place, Sizes, sizes_of};
use std::alloc::Global;

/// How many slots these are.
pub fn count(kinds: &Kinds) -> u64
    ensures exact { result ≡ length kinds.now }
    ensures few { result < 2 ^ 34 }
{
    let [lowest, middle, highest] = kinds.runs();
    lowest.count as u64 + middle.count as u64 + highest.count as u64
}

fn count_given(given: &Option<Kinds>) -> Option<u64>
    ensures { result ≡ option_map length given.now }
{
    match given {
        None => None,
        Some(kinds) => Some(count(kinds)),
    }
}

/// The place that an instruction names, if it may go there.
pub fn target_of(instr: &Instr) -> Option<Pc>
    ensures { option_map (λ t. t.0) result ≡ target_of instr.now }
{
    match *instr {
        Instr::Next(to)
        | Instr::Jump(to)
        | Instr::JumpIf(to)
        | Instr::JumpUnless(to)
        | Instr::JumpIfKeep(to)
        | Instr::JumpUnlessKeep(to) => Some(to),
        _ => None,
    }
}

/// How many cells a block takes along.
fn captured_by(code: &Code, block: BlockId) -> Result<u32, Memory>
    ensures { IfOk result (λ n. n ≡ (links_of code.now).captures block.0) }
{
    match code.blocks.get(block.0 as usize) {
        None => Ok(0),
        Some(block) => u32::try_from(block.free.len()).map_err(|_| Memory),
    }
}

/// How many cells the block takes along that an instruction names.
pub fn captured(code: &Code, instr: &Instr) -> Result<u32, Memory>
    ensures { IfOk result (λ n. n ≡ captured (links_of code.now) instr.now) }
{
    match *instr {
        Instr::MakeFunction(block, _, _) | Instr::MakeClass(block) | Instr::MakeGenerator(block) =>
            captured_by(code, block),
        _ => Ok(0),
    }
}

/// An instruction as sizes see it.
fn place_of(code: &Code, instr: &Instr, next: usize) -> Result<Place, Memory>
    ensures { IfOk result (λ p. p ≡ place_of (effect (links_of code.now) instr.now)
        (target_of instr.now) next) }
{
    let effect = effect(instr, captured(code, instr)?);
    let target = target_of(instr);
    let takes = count(&effect.takes);
    Ok(Place {
        takes,
        needs: takes + effect.above.unwrap_or(0) as u64,
        onward: count_given(&effect.gives),
        next,
        aside: aside_given(target, &effect.aside),
        target: target_or(target),
        again: effect.again,
    })
}

fn aside_given(target: Option<Pc>, given: &Option<Kinds>) -> Option<u64>
    ensures { result ≡ aside_given (option_map (λ t. t.0) target) given.now }
{
    match target {
        None => None,
        Some(_) => count_given(given),
    }
}

fn target_or(target: Option<Pc>) -> usize
    ensures { result ≡ target_or (option_map (λ t. t.0) target) }
{
    match target {
        None => 0,
        Some(to) => to.0 as usize,
    }
}

fn start_size(kind: BlockKind) -> u64
    ensures { result ≡ length (kinds_at_start kind) }
{
    match kind {
        BlockKind::GeneratorExpression => 1,
        _ => 0,
    }
}

/// The places of a block.
fn places(alloc: Global, code: &Code, block: &CodeBlock) -> Result<Vec<Option<Place>>, Memory>
    ensures { IfOk result (λ table. (view : ℕ → Option Ins) → IsView block.now view
        → HasPlaces (block_of code.now block.now view) table.items) }
{
    let bytes = block.instructions.as_slice();
    let mut table = vec![in alloc; None; bytes.len()]?;
    let mut at = 0;
    while at < bytes.len() {
        let Some((instr, next)) = decode(bytes, at) else {
            return Ok(table);
        };
        table[at] = Some(place_of(code, &instr, next)?);
        at = next;
    }
    Ok(table)
}

/// How many slots the places of a block get, or the least place up to which these numbers
/// disagree: two at one place, a handler row that is to leave more than lie there, or an
/// instruction with too few, in this order. What needs kinds is not asked. Of bytes that spell no
/// instructions nothing is told.
///
/// # Errors
///
/// `Memory` for want of it, and where a size passes 2^64 or a block has 2^32 free names, to which
/// no block of a code file comes.
pub fn sizes(alloc: Global, code: &Code, block: &CodeBlock) -> Result<Sizes, Memory>
    ensures { IfOk result (λ sizes. (view : ℕ → Option Ins) → IsView block.now view
        → TellsSizes (block_of code.now block.now view) sizes) }
{
    let places = places(alloc, code, block)?;
    let rows = Vec::from_slice(alloc, block.handlers.as_slice())?;
    sizes_of(alloc, places, rows, start_size(block.kind))
}

/// How many slots the places of a block get through the instructions at a place and below, or that
/// these numbers disagree there. What comes to a place behind goes no further.
///
/// # Errors
///
/// `Memory` for want of it, and where a size passes 2^64 or a block has 2^32 bytes or free names, to
/// which no block of a code file comes.
pub fn sizes_up_to(
    alloc: Global,
    code: &Code,
    block: &CodeBlock,
    place: Pc,
) -> Result<Sizes, Memory>
    ensures { IfOk result (λ sizes. (view : ℕ → Option Ins) → IsView block.now view
        → TellsSizesUpTo (block_of code.now block.now view) place.0 sizes) }
{
    let places = places(alloc, code, block)?;
    let Some(limit) = place.0.checked_add(1) else {
        return Err(Memory);
    };
    let rows = block.handlers.as_slice();
    sizes_below(alloc, places, rows, start_size(block.kind), limit)
}
