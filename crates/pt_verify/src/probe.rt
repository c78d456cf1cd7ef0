//! What refuses a block at a place, of all that is told of it.
ghost use Rattle.std.specs.Prelude.{◌≡◌};
ghost use Rattle.pt_verify.specs.Probing.{disagreement_at, last_of};

use crate::cuts::first_cut;
use crate::leaves::{held_up_to, no_leaves};
use pt_base::{Memory, Pc};
use pt_block_kinds::{BlockKinds, kinds_up_to};
use pt_budget::Budget;
use pt_code::{Code, CodeBlock};
use pt_kind_failures::{kind_failures, least_cut};
use pt_leave_clashes::leaves_clash;
use pt_places::Places;
use pt_refusals::{Failures, LeaveFailures, Probe, Refusal};
use pt_standing::Defaults;
use pt_takers::Takers;
use pt_verify_depths::{Sizes, sizes_up_to};
use pt_verify_leaves::{HeldLeaves, leaves_lack};
use std::alloc::Global;

/// A block, and what is made of it once.
#[derive(Drop)]
pub struct BlockProbe<'a> {
    pub alloc: Global,
    pub code: &'a Code,
    pub defaults: &'a Defaults,
    pub block: &'a CodeBlock,
    pub places: &'a Places,
    pub takers: &'a Takers,
    pub sizes: &'a Sizes,
    /// The steps that held Leaves may take each time that it is asked.
    pub budget: Budget,
}

/// What is told of a block up to a place up to which numbers of slots agree: how it fails, and if it
/// doesn't, the Leaves that each EndFinally lets go on; and the steps that these left.
#[derive(Drop)]
pub struct Answer {
    pub failures: Failures,
    pub held: HeldLeaves,
    pub budget: Budget,
}

/// How numbers of slots disagree at a place.
#[derive(Clone, Copy)]
pub enum Disagreement {
    Meet,
    /// The handler row with this number is too deep.
    TooDeep(usize),
    TooFew,
}

/// How they disagree there, if that is the first place up to which they do.
fn disagreement_at(place: usize, sizes: &Sizes) -> Option<Disagreement>
    ensures { result ≡ disagreement_at place sizes.now }
{
    match sizes {
        Sizes::Meet(at) if place == *at => Some(Disagreement::Meet),
        Sizes::TooDeep(at, row) if place == *at => Some(Disagreement::TooDeep(*row)),
        Sizes::TooFew(at) if place == *at => Some(Disagreement::TooFew),
        _ => None,
    }
}

/// The last place of which a block is asked: where numbers of slots disagree first, or its end.
pub fn last_of(sizes: &Sizes, size: usize) -> usize
    ensures { result ≡ last_of sizes.now size }
{
    match sizes {
        Sizes::Agree(_) => size,
        Sizes::Meet(at) | Sizes::TooDeep(at, _) | Sizes::TooFew(at) => *at,
    }
}

impl<'a> BlockProbe<'a> {
    ghost use Rattle.std.specs.Prelude.{◌≡◌, ◌≤◌, ℕ, length, Some, IfOk};
    ghost use Rattle.sem_fits.specs.fits.Block.{Block};
    ghost use Rattle.pt_verify_depths.specs.PlaceTable.{AreSizesUpTo, SizesDisagree};
    ghost use Rattle.pt_verify_depths.specs.Refusals.{CutsOf};
    ghost use Rattle.pt_kind_flow.specs.Search.{IsFlow};
    ghost use Rattle.pt_block_kinds.specs.Drawing.{Draws};
    ghost use Rattle.pt_refusals.specs.Told.{TellsFailures};
    ghost use Rattle.pt_verify.specs.declared.probe.Disagreement.TheVariants.{TooDeep, TooFew};
    ghost use Rattle.pt_verify.specs.Probing.{TellsAnswer, TellsOf, disagreement_at, last_of};

    /// How it fails up to a place by a row that is too deep.
    fn too_deep(&self, place: usize, row: usize) -> Result<Failures, Memory>
        ensures { IfOk result (λ told. (b : Block) → TellsOf self.now b
            → disagreement_at place self.now.sizes.now ≡ Some (TooDeep row)
            → TellsFailures b place told) }
    {
        let Some(deep) = self.block.marks.len().checked_add(row) else {
            return Err(Memory);
        };
        let cuts = first_cut(self.alloc, self.code, self.block, self.places, place, row)?;
        Ok(Failures::TooDeep { row: deep, cuts })
    }

    /// How it fails up to a place by too few slots.
    fn too_few(&self, place: usize) -> Result<Failures, Memory>
        ensures { IfOk result (λ told. (b : Block) → TellsOf self.now b
            → disagreement_at place self.now.sizes.now ≡ Some TooFew
            → TellsFailures b place told) }
    {
        let rows = self.block.handlers.len();
        let cuts = first_cut(self.alloc, self.code, self.block, self.places, place, rows)?;
        Ok(Failures::TooFew { cuts })
    }

    /// What is told of it up to a place, for the kinds of slots there, where no cuts differ. The flow
    /// of kinds is dropped before slots in common are asked.
    fn by_kinds(
        &self,
        place: Pc,
        sizes: &[Option<u64>],
        kinds: BlockKinds,
    ) -> Result<Answer, Memory>
        requires flow { IsFlow kinds.flow }
        requires long { length self.now.block.now.instructions ≤ length sizes.now }
        ensures { IfOk result (λ answer. (b : Block) → TellsOf self.now b
            → AreSizesUpTo b place.0 sizes.now → Draws b place.0 sizes.now kinds
            → ((n : ℕ) → CutsOf b place.0 n → ⊥) → TellsAnswer b place.0 answer) }
    {
        let (block, places, takers) = (self.block, self.places, self.takers);
        let limit = place.0 as usize;
        let clash = leaves_clash(places, sizes, &kinds, place);
        let (code, defaults) = (self.code, self.defaults);
        let told = kind_failures(code, defaults, block, places, sizes, limit, kinds)?;
        let mut budget = self.budget;
        let held = held_up_to(self.alloc, block, places, takers, sizes, place, &mut budget)?;
        let lacks = leaves_lack(places, takers, sizes, &held, place)?;
        Ok(Answer {
            failures: Failures::Agree {
                kinds: told,
                leaves: LeaveFailures { lacks, clash },
            },
            held,
            budget,
        })
    }

    /// What is told of it up to a place, for the sizes that places get up to there. Where cuts differ,
    /// Leaves aren't asked.
    pub fn by_sizes(&self, place: Pc, sizes: &[Option<u64>]) -> Result<Answer, Memory>
        ensures { IfOk result (λ answer. (b : Block) → TellsOf self.now b
            → AreSizesUpTo b place.0 sizes.now → TellsAnswer b place.0 answer) }
    {
        let block = self.block;
        let limit = place.0 as usize;
        if sizes.len() < block.instructions.len() {
            return Err(Memory);
        }
        let kinds = kinds_up_to(self.alloc, self.code, block, self.places, sizes, limit)?;
        match least_cut(block, sizes, &kinds)? {
            None => self.by_kinds(place, sizes, kinds),
            Some(row) => Ok(Answer {
                failures: Failures::Cut(row),
                held: no_leaves(self.alloc),
                budget: self.budget,
            }),
        }
    }

    /// How it fails up to a place up to which numbers of slots agree.
    fn agreeing(&self, place: usize) -> Result<Failures, Memory>
        ensures { IfOk result (λ told. (b : Block) → TellsOf self.now b
            → (SizesDisagree b place → ⊥) → TellsFailures b place told) }
    {
        let Ok(limit) = u32::try_from(place) else {
            return Err(Memory);
        };
        match sizes_up_to(self.alloc, self.code, self.block, Pc(limit))? {
            Sizes::Agree(sizes) => {
                let answer = self.by_sizes(Pc(limit), &sizes)?;
                Ok(answer.failures)
            }
            _ => Err(Memory),
        }
    }

    /// How it fails up to a place.
    fn failures_at(&self, place: usize) -> Result<Failures, Memory>
        ensures { IfOk result (λ told. (b : Block) → TellsOf self.now b
            → place ≤ last_of self.now.sizes.now (length self.now.block.now.instructions)
            → TellsFailures b place told) }
    {
        match disagreement_at(place, self.sizes) {
            Some(Disagreement::Meet) => Ok(Failures::Meet),
            Some(Disagreement::TooDeep(row)) => self.too_deep(place, row),
            Some(Disagreement::TooFew) => self.too_few(place),
            None => self.agreeing(place),
        }
    }
}

impl<'a> Probe for BlockProbe<'a> {
    ghost use Rattle.std.specs.Prelude.{length};
    ghost use Rattle.pt_verify.specs.Probing.{TellsOf, last_of};

    ghost tells = { λ probe b. TellsOf probe b };

    ghost last = { λ probe. last_of probe.sizes.now (length probe.block.now.instructions) };

    fn refusal_at(&self, place: usize) -> Result<Option<Refusal>, Memory> {
        let failures = self.failures_at(place)?;
        Ok(pt_refusals::refusal_at(place, &failures))
    }
}
