//! The sizes of all places, or the least place up to which they disagree.
ghost use Rattle.std.specs.Prelude.{Contains, MatchBool, ℕ, List, Option, ◌≡◌, ◌||◌, nat_lt, ◌<◌, ◌≤◌, ◌+◌, ◌++◌, ◌∷◌, [], length, false, map, Some, IfOk};
ghost use Rattle.pt_ranges.specs.declared.handlers.Handler.{Handler};
ghost use Rattle.pt_sizes.specs.declared.places.Place.{Place};
ghost use Rattle.pt_sizes.specs.Flow.{Tells};
ghost use Rattle.pt_sizes.specs.Lows.{AreAllLows, below};
ghost use Rattle.pt_sizes.specs.Waiting.{AllDescend, Waits, levels_of, levels_size};
ghost use Rattle.pt_sizes.specs.Search.{AfterSettle, AfterStep, DeepBelow, IsFirstTable, IsLeastDeep, Open, OpenNow, SearchExpansion, HasDeepest, body, body_of, weight};

use crate::lows::Lows;
use crate::places::{Place, SizeStep, add_own};
use crate::waiting::Waiting;
use pt_base::Memory;
use pt_ranges::Handler;
use std::alloc::Global;

/// The sizes of places, or where they disagree.
#[derive(Debug, Drop)]
pub enum Sizes {
    /// They agree; a place without slots of any number is never come to.
    Agree(Vec<Option<u64>>),
    /// A place gets two numbers of slots, through the instructions up to this one.
    Meet(usize),
    /// A handler row is to leave too many slots: the place and the number of the row.
    TooDeep(usize, usize),
    /// An instruction has too few slots.
    TooFew(usize),
}

/// A block whose sizes are sought.
#[derive(Debug, Drop)]
struct Asked {
    places: Vec<Option<Place>>,
    rows: Vec<Handler>,
    first: u64,
    /// How deep the deepest row is that covers each place.
    deepest: Vec<u32>,
}

/// What is known so far.
#[derive(Debug, Drop)]
struct Search {
    table: Vec<Option<u64>>,
    work: Vec<SizeStep>,
    waiting: Waiting,
    deep: bool,
    few: bool,
}

/// What was told, or that the one number is less.
fn or_less(told: bool, left: u64, right: u64) -> bool
    ensures { result ≡ told || nat_lt left right }
{
    told || left < right
}

impl Search {
    /// Goes on from a place whose size is known.
    fn go_on(&mut self, asked: &Asked, place: Place, at: usize, size: u64) -> Result<(), Memory>
        requires inside { at < length asked.now.deepest.items }
        requires deepest { HasDeepest asked.now }
        requires sorted { AllDescend (levels_of self.old.waiting.levels) }
        ensures { IfOk result (λ _. SearchExpansion (body asked.now) at size place
            self.old.table.items self.new.table.items self.old.work.items self.new.work.items
            (levels_of self.old.waiting.levels) (levels_of self.new.waiting.levels)
            self.old.deep self.new.deep self.old.few self.new.few) }
    {
        let below = size.saturating_sub(place.takes);
        add_own(&mut self.work, place, at, size)?;
        self.waiting.land(at, below, &mut self.work)?;
        self.deep = or_less(self.deep, below, asked.deepest[at] as u64);
        self.few = or_less(self.few, size, place.needs);
        Ok(())
    }

    /// Sees to one step; false where two sizes meet.
    fn step(&mut self, asked: &Asked, limit: usize, step: SizeStep) -> Result<bool, Memory>
        requires long { length asked.now.places.items ≡ length asked.now.deepest.items }
        requires deepest { HasDeepest asked.now }
        requires sorted { AllDescend (levels_of self.old.waiting.levels) }
        requires open { Open (body asked.now) limit self.old.table.items
            (self.old.work.items ++ step ∷ [])
            (Waits (levels_of self.old.waiting.levels)) self.old.deep self.old.few }
        ensures { IfOk result (λ fine. AfterStep fine (body asked.now) limit
            (weight self.old.table.items self.old.work.items
            (levels_size (levels_of self.old.waiting.levels)))
            self.new.table.items self.new.work.items
            (levels_of self.new.waiting.levels) self.new.deep self.new.few) }
    {
        if step.to >= asked.places.len() {
            return Ok(true);
        }
        let Some(place) = asked.places[step.to] else {
            return Ok(true);
        };
        match self.table[step.to] {
            Some(size) => Ok(size == step.size),
            None => {
                self.table[step.to] = Some(step.size);
                if step.to < limit {
                    self.go_on(asked, place, step.to, step.size)?;
                }
                Ok(true)
            }
        }
    }

    /// Sees to all that is due; false where two sizes meet.
    fn settle(&mut self, asked: &Asked, limit: usize) -> Result<bool, Memory>
        requires long { length asked.now.places.items ≡ length asked.now.deepest.items }
        requires deepest { HasDeepest asked.now }
        requires sorted { AllDescend (levels_of self.old.waiting.levels) }
        requires open { Open (body asked.now) limit self.old.table.items self.old.work.items
            (Waits (levels_of self.old.waiting.levels)) self.old.deep self.old.few }
        ensures { IfOk result (λ fine. AfterSettle fine (body asked.now) limit
            self.new.table.items (levels_of self.new.waiting.levels) self.new.deep self.new.few) }
    {
        while let Some(step) = self.work.pop() {
            if !self.step(asked, limit, step)? {
                return Ok(false);
            }
        }
        Ok(true)
    }

    /// Goes on from the next place, and sees to all that follows; false where two sizes meet.
    fn stage(&mut self, asked: &Asked, at: usize) -> Result<bool, Memory>
        requires inside { at < length asked.now.places.items }
        requires long { length asked.now.places.items ≡ length asked.now.deepest.items }
        requires deepest { HasDeepest asked.now }
        requires open { OpenNow (body asked.now) at self.old.table.items []
            (levels_of self.old.waiting.levels) false false }
        ensures { IfOk result (λ fine. AfterSettle fine (body asked.now) (at + 1)
            self.new.table.items (levels_of self.new.waiting.levels) self.new.deep self.new.few) }
    {
        self.work.clear();
        self.deep = false;
        self.few = false;
        let Some(place) = asked.places[at] else {
            return Ok(true);
        };
        match self.table[at] {
            None => Ok(true),
            Some(size) => {
                self.go_on(asked, place, at, size)?;
                self.settle(asked, at + 1)
            }
        }
    }
}

/// A table in which the first place alone has its size.
fn first_table(
    alloc: Global,
    places: &[Option<Place>],
    first: u64,
) -> Result<Vec<Option<u64>>, Memory>
    ensures { IfOk result (λ table. IsFirstTable places.now first table.items) }
{
    let mut table = vec![in alloc; None; places.len()]?;
    if places.len() == 0 || places[0].is_none() {
        return Ok(table);
    }
    table[0] = Some(first);
    Ok(table)
}

/// Whether fewer slots lie at a place that the row covers, up to a limit, than it is to leave.
fn is_deep(lows: &Lows, limit: usize, row: &Handler) -> bool
    ensures { (places : List (Option Place)) (table : List (Option ℕ))
        → AreAllLows (below places table limit) limit
        (map (λ level. level.items) lows.now.levels.items)
        → MatchBool result (DeepBelow places table limit row.now)
        (DeepBelow places table limit row.now → ⊥) }
{
    lows.fewest(row.from.0 as usize, limit.min(row.to.0 as usize)) < row.depth as u64
}

/// The first row that is to leave more slots than lie there.
fn deep_row(
    alloc: Global,
    asked: &Asked,
    table: &[Option<u64>],
    limit: usize,
) -> Result<usize, Memory>
    requires places { limit ≤ length asked.now.places.items }
    requires sizes { limit ≤ length table.now }
    requires some { (row : Handler) × (Contains asked.now.rows.items row
        × DeepBelow asked.now.places.items table.now limit row) }
    ensures { IfOk result (λ number. IsLeastDeep asked.now.places.items asked.now.rows.items
        table.now limit number) }
{
    let lows = Lows::build(alloc, &asked.places, table, limit)?;
    for (number, row) in asked.rows.iter().enumerate() {
        if is_deep(&lows, limit, row) {
            return Ok(number);
        }
    }
    Ok(0)
}

/// The sizes that places get, where the first gets so many, or the least place up to which they
/// disagree: two at one place, else a handler row that is to leave too many slots, else an
/// instruction with too few (Library Reference, "dis").
///
/// # Errors
///
/// `Memory` for want of it, and where a size passes 2^64, to which no block of a code file comes.
pub fn sizes_of(
    alloc: Global,
    places: Vec<Option<Place>>,
    rows: Vec<Handler>,
    first: u64,
) -> Result<Sizes, Memory>
    ensures { IfOk result (λ sizes. Tells (body_of places.items rows.items first) sizes) }
{
    let table = first_table(alloc, &places, first)?;
    let waiting = Waiting::build_if_any(alloc, &rows, places.len())?;
    let deepest = waiting.deepest(alloc, places.len())?;
    let asked = Asked {
        places,
        rows,
        first,
        deepest,
    };
    let mut search = Search {
        table,
        work: Vec::new(alloc),
        waiting,
        deep: false,
        few: false,
    };
    for at in 0..asked.places.len() {
        if !search.stage(&asked, at)? {
            return Ok(Sizes::Meet(at));
        }
        if search.deep {
            let row = deep_row(alloc, &asked, &search.table, at + 1)?;
            return Ok(Sizes::TooDeep(at, row));
        }
        if search.few {
            return Ok(Sizes::TooFew(at));
        }
    }
    Ok(Sizes::Agree(search.table))
}
