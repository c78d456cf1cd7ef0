//! The fewest slots that lie below in stretches of places, so that a row is tried at all places
//! that it covers at once.
ghost use Rattle.std.specs.Prelude.{◌≡◌, ◌+◌, ◌*◌, ◌<◌, ◌≤◌, ℕ, if◌then◌else◌, length, map, min, IfOk};
ghost use Rattle.pt_sizes.specs.Flow.{entry};
ghost use Rattle.pt_sizes.specs.Lows.{AreAllLows, IsFewest, below, below_at, low_at, no_place};

use crate::places::Place;
use crate::waiting::{at_high, at_low};
use pt_base::Memory;
use std::alloc::Global;

/// Where no size is known.
const NO_PLACE: u64 = u64::MAX;

/// The least numbers on each level by stretches of places: a stretch of a level is two of the
/// level below.
#[derive(Debug, Drop)]
pub struct Lows {
    pub levels: Vec<Vec<u64>>,
}

fn low_at(level: &[u64], node: usize) -> u64
    ensures { result ≡ low_at level.now node }
{
    if node < level.len() {
        level[node]
    } else {
        NO_PLACE
    }
}

/// The level above.
fn level_above(alloc: Global, level: &[u64]) -> Result<Vec<u64>, Memory>
    ensures { IfOk result (λ above. (v : ℕ)
        → low_at above.items v ≡ min (low_at level.now (2 * v)) (low_at level.now (2 * v + 1))) }
{
    let mut above = Vec::new(alloc);
    for node in 0..level.len() / 2 + level.len() % 2 {
        above.push(low_at(level, 2 * node).min(low_at(level, 2 * node + 1)))?;
    }
    Ok(above)
}

/// How many slots lie below at a place.
fn below_at(places: &[Option<Place>], table: &[Option<u64>], at: usize) -> u64
    requires place { at < length places.now }
    requires size { at < length table.now }
    ensures { result ≡ below_at (entry places.now at) (entry table.now at) }
{
    let Some(place) = places[at] else {
        return NO_PLACE;
    };
    match table[at] {
        None => NO_PLACE,
        Some(size) => size.saturating_sub(place.takes),
    }
}

/// How many slots lie below, place by place up to a limit.
fn lowest_level(
    alloc: Global,
    places: &[Option<Place>],
    table: &[Option<u64>],
    limit: usize,
) -> Result<Vec<u64>, Memory>
    requires places { limit ≤ length places.now }
    requires sizes { limit ≤ length table.now }
    ensures { IfOk result (λ level. (q : ℕ)
        → low_at level.items q ≡ below places.now table.now limit q) }
{
    let mut level = Vec::new(alloc);
    for at in 0..limit {
        level.push(below_at(places, table, at))?;
    }
    Ok(level)
}

impl Lows {
    /// The fewest slots that lie below at places up to a limit.
    pub fn build(
        alloc: Global,
        places: &[Option<Place>],
        table: &[Option<u64>],
        limit: usize,
    ) -> Result<Lows, Memory>
        requires places { limit ≤ length places.now }
        requires sizes { limit ≤ length table.now }
        ensures { IfOk result (λ lows. AreAllLows (below places.now table.now limit) limit
            (map (λ level. level.items) lows.levels.items)) }
    {
        let mut levels = Vec::new(alloc);
        let mut level = lowest_level(alloc, places, table, limit)?;
        let mut size = limit;
        while size > 0 {
            let above = level_above(alloc, &level)?;
            levels.push(level)?;
            level = above;
            size /= 2;
        }
        Ok(Lows { levels })
    }

    /// The least number of the places from one up to another.
    pub fn fewest(&self, from: usize, to: usize) -> u64
        ensures { (numbers : ℕ → ℕ) (count : ℕ)
            → AreAllLows numbers count (map (λ level. level.items) self.now.levels.items)
            → to ≤ count → IsFewest numbers from to result }
    {
        let mut low = from;
        let mut high = to;
        let mut fewest = NO_PLACE;
        for level in self.levels.iter() {
            fewest = fewest.min(low_of(level, at_low(low, high), low));
            fewest = fewest.min(low_of(level, at_high(low, high), high.saturating_sub(1)));
            low = low / 2 + low % 2;
            high /= 2;
        }
        fewest
    }
}

/// The number of a stretch where a test holds.
fn low_of(level: &[u64], test: bool, node: usize) -> u64
    ensures { result ≡ (if test then low_at level.now node else no_place) }
{
    if test { low_at(level, node) } else { NO_PLACE }
}
