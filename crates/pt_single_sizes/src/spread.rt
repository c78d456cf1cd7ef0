//! Sizes spread from the first place on, until all ways on are seen to.
ghost use Rattle.std.specs.Prelude.{◌≡◌, ◌+◌, ◌++◌, ◌∷◌, ◌<◌, [], ℕ, length, replicate, Option, None, IfOk};
ghost use Rattle.pt_code.specs.View.{Ins, IsView};
ghost use Rattle.pt_places.specs.PlaceTable.{HasPlaces};
ghost use Rattle.pt_sizes.specs.Waiting.{AllDescend, levels_of};
ghost use Rattle.sem_fits.specs.fits.Block.{block_of, effect, links_of};
ghost use Rattle.sem_fits.specs.fits.Steps.{target_of};
ghost use Rattle.pt_verify_depths.specs.Sizes.{SizesMeet};
ghost use Rattle.pt_single_sizes.specs.Single.{AreSingle};
ghost use Rattle.pt_single_sizes.specs.Search.{GoesOn, Went};

use crate::ways::add_own;
use pt_base::Memory;
use pt_block_kinds::{first_run, left, number_of, place_at};
use pt_code::{Code, CodeBlock};
use pt_instr::effect;
use pt_places::{Place, Places};
use pt_sizes::{SizeStep, Waiting};
use pt_verify_depths::{captured, target_of};
use std::alloc::Global;

/// The sizes that are known, and the ways on that are still due.
#[derive(Debug, Drop)]
struct Spread {
    table: Vec<Option<u64>>,
    work: Vec<SizeStep>,
    waiting: Waiting,
}

impl Spread {
    /// Goes on from a place with so many slots.
    fn expand(&mut self, code: &Code, place: &Place, at: usize, size: u64) -> Result<(), Memory>
        requires { AllDescend (levels_of self.old.waiting.levels) }
        ensures { IfOk result (λ _. Went (effect (links_of code.now) place.now.instr) at size
            place.now.next.0 (target_of place.now.instr) self.old.table.items
            self.new.table.items self.old.work.items self.new.work.items
            (levels_of self.old.waiting.levels) (levels_of self.new.waiting.levels)) }
    {
        let effect = effect(&place.instr, captured(code, &place.instr)?);
        let next = place.next.0 as usize;
        let target = number_of(target_of(&place.instr));
        add_own(&mut self.work, &effect, size, at, next, target)?;
        self.waiting.land(at, left(&effect, size), &mut self.work)?;
        Ok(())
    }

    /// Sees to one way on.
    fn step(
        &mut self,
        code: &Code,
        places: &Places,
        limit: usize,
        step: SizeStep,
    ) -> Result<(), Memory>
        requires { AllDescend (levels_of self.old.waiting.levels) }
        ensures { IfOk result (λ _. GoesOn (links_of code.now) places.now limit
            self.old.table.items (self.old.work.items ++ step ∷ [])
            (levels_of self.old.waiting.levels) self.new.table.items self.new.work.items
            (levels_of self.new.waiting.levels)) }
    {
        if step.to >= self.table.len() {
            return Ok(());
        }
        let Some(place) = place_at(places, step.to)? else {
            return Ok(());
        };
        match self.table[step.to] {
            Some(_) => Ok(()),
            None => {
                self.table[step.to] = Some(step.size);
                if step.to <= limit {
                    self.expand(code, place, step.to, step.size)?;
                }
                Ok(())
            }
        }
    }

    /// Sees to all that is due.
    fn settle(&mut self, code: &Code, places: &Places, limit: usize) -> Result<(), Memory>
        requires { AllDescend (levels_of self.old.waiting.levels) }
        ensures { IfOk result (λ _. GoesOn (links_of code.now) places.now limit
            self.old.table.items self.old.work.items (levels_of self.old.waiting.levels)
            self.new.table.items [] (levels_of self.new.waiting.levels)) }
    {
        let mut left = u64::MAX;
        while left > 0 {
            let Some(step) = self.work.pop() else {
                return Ok(());
            };
            self.step(code, places, limit, step)?;
            left -= 1;
        }
        Err(Memory)
    }
}

/// A table without sizes.
fn no_sizes(alloc: Global, count: usize) -> Result<Vec<Option<u64>>, Memory>
    ensures { IfOk result (λ sizes. sizes.items ≡ replicate count None) }
{
    let sizes = vec![in alloc; None; count]?;
    Ok(sizes)
}

/// How many slots the places of a block get through the instructions at a limit and below, where
/// none gets two numbers. An instruction with too few slots goes on to nothing, and a handler row
/// is led to from the places alone below which as many slots lie as it leaves. For n bytes and r
/// handler rows it takes O((n + r) log n) time and memory.
///
/// # Errors
///
/// `Memory` for want of it, and where the block has 2^32 bytes or free names, or a size passes
/// 2^64, as in no code file.
pub fn single_sizes(
    alloc: Global,
    code: &Code,
    block: &CodeBlock,
    places: &Places,
    limit: usize,
) -> Result<Vec<Option<u64>>, Memory>
    ensures long { IfOk result (λ sizes. length sizes.items ≡ length block.now.instructions + 1) }
    ensures exact { IfOk result (λ sizes. (view : ℕ → Option Ins) → IsView block.now view
        → HasPlaces view places.now
        → (SizesMeet (block_of code.now block.now view) limit → ⊥)
        → AreSingle (block_of code.now block.now view) limit sizes.items) }
{
    let Some(count) = block.instructions.len().checked_add(1) else {
        return Err(Memory);
    };
    let mut spread = Spread {
        table: no_sizes(alloc, count)?,
        work: Vec::new(alloc),
        waiting: Waiting::build_if_any(alloc, block.handlers.as_slice(), count)?,
    };
    spread.work.push(SizeStep {
        to: 0,
        size: first_run(block.kind).count as u64,
    })?;
    spread.settle(code, places, limit)?;
    Ok(spread.table)
}
