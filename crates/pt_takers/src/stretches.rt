//! The chains of stretches of places: on each level a stretch is two of the level below.
ghost use Rattle.std.specs.Prelude.{◌≡◌, List, find, map, IfOk};
ghost use Rattle.pt_sizes.specs.Waiting.{Level, level_of, levels_of, stretch_of};
ghost use Rattle.pt_takers.specs.Sides.{is_below};
ghost use Rattle.pt_takers.specs.Stretches.{AreChains, AreChainsOfLevel, first_up, sooner};

use crate::chains::{chain, first_below};
use crate::sides::Side;
use pt_base::Memory;
use pt_ranges::Handler;
use std::alloc::Global;

fn chains_of_level(
    alloc: Global,
    side: Side,
    level: &[Vec<Handler>],
) -> Result<Vec<Vec<Handler>>, Memory>
    ensures { IfOk result (λ chains. AreChainsOfLevel side (map (λ rows. rows.items) level.now)
        (level_of chains)) }
{
    let mut chains = Vec::new(alloc);
    for rows in level.iter() {
        chains.push(chain(alloc, side, rows)?)?;
    }
    Ok(chains)
}

/// The chains of all stretches.
pub fn chains(
    alloc: Global,
    side: Side,
    levels: &[Vec<Vec<Handler>>],
) -> Result<Vec<Vec<Vec<Handler>>>, Memory>
    ensures { IfOk result (λ chains. AreChains side (map level_of levels.now) (levels_of chains)) }
{
    let mut chains = Vec::new(alloc);
    for level in levels.iter() {
        chains.push(chains_of_level(alloc, side, level)?)?;
    }
    Ok(chains)
}

/// Of two rows the one with the less number, which stands for its target.
pub fn sooner(one: Option<Handler>, other: Option<Handler>) -> Option<Handler>
    ensures { result ≡ sooner one other }
{
    match (one, other) {
        (None, other) => other,
        (one, None) => one,
        (Some(row), Some(next)) => {
            if row.target.0 <= next.target.0 {
                Some(row)
            } else {
                Some(next)
            }
        }
    }
}

/// The first row of a stretch.
fn first_in(side: Side, bound: u64, level: &[Vec<Handler>], node: usize) -> Option<Handler>
    ensures { (rows : Level) → AreChainsOfLevel side rows (map (λ rows. rows.items) level.now)
        → result ≡ find (is_below side bound) (stretch_of rows node) }
{
    match level.get(node) {
        None => None,
        Some(chain) => first_below(side, bound, chain),
    }
}

/// Of the stretches in which a place lies the first row on whose side the bound lies.
pub fn first_up(
    side: Side,
    bound: u64,
    levels: &[Vec<Vec<Handler>>],
    node: usize,
) -> Option<Handler>
    ensures { (rows : List Level) → AreChains side rows (map level_of levels.now)
        → result ≡ first_up side bound rows node }
{
    match levels {
        [] => None,
        [level, above @ ..] => sooner(
            first_in(side, bound, level, node),
            first_up(side, bound, above, node / 2),
        ),
    }
}
