//! Handler rows that wait to land, so that each is looked at a few times, however many places it
//! covers.
ghost use Rattle.std.specs.Prelude.{◌≡◌, ◌+◌, ◌<◌, ◌-◌, ℕ, List, length, map, true, IfOk};
ghost use Rattle.pt_ranges.specs.declared.handlers.Handler.{Handler};
ghost use Rattle.pt_sizes.specs.Waiting.{Added, AllDescend, AllWait, AreDeepest, BareTo, DeepestBelow, Descends, Empty, Index, IsByDepth, Ready, at_high, at_low, first_depth, placed, put, LevelLanding, StretchLanding, level_of, levels_of, stretch_of};
ghost use Rattle.pt_sizes.specs.Search.{SearchLanding};

use crate::places::SizeStep;
use pt_base::Memory;
use pt_ranges::Handler;
use std::alloc::Global;

/// The rows that wait, on each level by stretches of places: a stretch of a level is two of the
/// level below. A row lies in a few stretches that are together the places that it covers, the
/// deepest rows of a stretch first.
#[derive(Debug, Drop)]
pub struct Waiting {
    pub levels: Vec<Vec<Vec<Handler>>>,
}

/// Lands the rows of a stretch that leave no more than so many slots.
fn land_some(rows: &mut Vec<Handler>, below: u64, work: &mut Vec<SizeStep>) -> Result<(), Memory>
    requires { Descends rows.old.items }
    ensures { IfOk result (λ _. StretchLanding rows.old.items rows.new.items below work.old.items
        work.new.items) }
{
    while let Some(row) = rows.pop() {
        if row.depth as u64 > below {
            rows.push(row)?;
            return Ok(());
        }
        work.push(SizeStep {
            to: row.target.0 as usize,
            size: row.depth as u64 + 1,
        })?;
    }
    Ok(())
}

fn land_on(
    level: &mut Vec<Vec<Handler>>,
    node: usize,
    below: u64,
    work: &mut Vec<SizeStep>,
) -> Result<(), Memory>
    requires { (v : ℕ) → Descends (stretch_of (level_of level.old) v) }
    ensures { IfOk result (λ _. LevelLanding (level_of level.old)
        (level_of level.new) node below work.old.items work.new.items) }
{
    if node < level.len() {
        land_some(&mut level[node], below, work)?;
    }
    Ok(())
}

/// Adds a row to a stretch where a test holds.
fn put(level: &mut Vec<Vec<Handler>>, test: bool, node: usize, row: Handler) -> Result<(), Memory>
    requires { test ≡ true → node < length level.old.items }
    ensures { IfOk result (λ _. level_of level.new ≡ put test (level_of level.old) node row) }
{
    if !test {
        return Ok(());
    }
    level[node].push(row)?;
    Ok(())
}

pub fn at_low(low: usize, high: usize) -> bool
    ensures { result ≡ at_low low high }
{
    low < high && low % 2 == 1
}

pub fn at_high(low: usize, high: usize) -> bool
    ensures { result ≡ at_high low high }
{
    low < high && high % 2 == 1
}

/// Adds a row to the stretches from low up to high that are no half of such a one above.
fn place_on(
    level: &mut Vec<Vec<Handler>>,
    low: usize,
    high: usize,
    row: Handler,
) -> Result<(), Memory>
    requires { high < length level.old.items + 1 }
    ensures { IfOk result (λ _. level_of level.new ≡ placed (level_of level.old) low high row) }
{
    put(level, at_low(low, high), low, row)?;
    put(level, at_high(low, high), high.saturating_sub(1), row)?;
    Ok(())
}

/// A level without rows.
fn level_of_none(alloc: Global, size: usize) -> Result<Vec<Vec<Handler>>, Memory>
    ensures { IfOk result (λ level. BareTo (size + 1) (level_of level)) }
{
    let mut level = Vec::new(alloc);
    for counter in 0..size {
        level.push(Vec::new(alloc))?;
    }
    level.push(Vec::new(alloc))?;
    Ok(level)
}

/// Levels without rows, of which the last has one stretch.
fn levels_of_none(alloc: Global, count: usize) -> Result<Vec<Vec<Vec<Handler>>>, Memory>
    ensures { IfOk result (λ levels. Empty count 0 (levels_of levels)) }
{
    let mut levels = Vec::new(alloc);
    let mut size = count;
    while size > 0 {
        levels.push(level_of_none(alloc, size)?)?;
        size /= 2;
    }
    Ok(levels)
}

fn first_depth(level: &[Vec<Handler>], node: usize) -> u32
    ensures { result ≡ first_depth (stretch_of (map (λ rows. rows.items) level.now) node) }
{
    if node >= level.len() {
        return 0;
    }
    match level[node].first() {
        Some(row) => row.depth,
        None => 0,
    }
}

/// The rows by depth, the deepest last.
fn by_depth(alloc: Global, rows: &[Handler]) -> Result<Vec<Handler>, Memory>
    ensures { IfOk result (λ sorted. IsByDepth rows.now sorted.items) }
{
    let mut sorted = Vec::from_slice(alloc, rows)?;
    sorted.sort_by_key(|row| row.depth)?;
    Ok(sorted)
}

impl Waiting {
    /// Lands the rows that cover a place and leave no more than so many slots.
    pub fn land(&mut self, at: usize, below: u64, work: &mut Vec<SizeStep>) -> Result<(), Memory>
        requires { AllDescend (levels_of self.old.levels) }
        ensures { IfOk result (λ _. SearchLanding (levels_of self.old.levels)
            (levels_of self.new.levels) at below work.old.items work.new.items) }
    {
        let mut node = at;
        for level in self.levels.iter_mut() {
            land_on(level, node, below, work)?;
            node /= 2;
        }
        Ok(())
    }

    /// The rows wait at all places below a count that they cover.
    pub fn build(alloc: Global, rows: &[Handler], count: usize) -> Result<Waiting, Memory>
        ensures { IfOk result (λ waiting. Index rows.now count (levels_of waiting.levels)) }
    {
        let mut waiting = Waiting {
            levels: levels_of_none(alloc, count)?,
        };
        let mut left = by_depth(alloc, rows)?;
        while let Some(row) = left.pop() {
            waiting.add(row, count)?;
        }
        Ok(waiting)
    }

    /// The same, where no rows take no memory.
    #[tactic(auto, using(crate::proofs::Adding::all_wait))]
    pub fn build_if_any(alloc: Global, rows: &[Handler], count: usize) -> Result<Waiting, Memory>
        ensures { IfOk result (λ waiting. AllWait rows.now count (levels_of waiting.levels)) }
    {
        if rows.is_empty() {
            return Ok(Waiting {
                levels: Vec::new(alloc),
            });
        }
        let waiting = Waiting::build(alloc, rows, count)?;
        Ok(waiting)
    }

    fn add(&mut self, row: Handler, count: usize) -> Result<(), Memory>
        requires { Ready count row (levels_of self.old.levels) }
        ensures { IfOk result (λ _. Added count row (levels_of self.old.levels)
            (levels_of self.new.levels)) }
    {
        let mut low = row.from.0 as usize;
        let mut high = count.min(row.to.0 as usize);
        for level in self.levels.iter_mut() {
            place_on(level, low, high, row)?;
            low = low / 2 + low % 2;
            high /= 2;
        }
        Ok(())
    }

    /// How deep the deepest row is that covers a place, where no row has landed yet; 0 for none.
    fn deepest_at(&self, at: usize) -> u32
        ensures { DeepestBelow (levels_of self.now.levels)
            (length self.now.levels.items) at result }
    {
        let mut node = at;
        let mut most = 0;
        for level in self.levels.iter() {
            most = first_depth(level, node).max(most);
            node /= 2;
        }
        most
    }

    /// How deep the deepest row is that covers each place, where no row has landed yet.
    #[tactic(auto, using(crate::proofs::Adding::all_wait))]
    pub fn deepest(&self, alloc: Global, count: usize) -> Result<Vec<u32>, Memory>
        ensures long { IfOk result (λ table. length table.items ≡ count) }
        ensures exact { IfOk result (λ table. (rows : List Handler)
            → Index rows count (levels_of self.now.levels) → AreDeepest rows table.items count) }
        ensures waits { IfOk result (λ table. (rows : List Handler)
            → AllWait rows count (levels_of self.now.levels) → AreDeepest rows table.items count) }
    {
        let mut table = Vec::new(alloc);
        for at in 0..count {
            table.push(self.deepest_at(at))?;
        }
        Ok(table)
    }
}
