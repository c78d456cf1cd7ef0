//! Of rows in their order those that leave more places on a side than all before: the first row on
//! whose side a place lies is one of them, and is found by halving.
ghost use Rattle.std.specs.Prelude.{◌≡◌, find, IfOk};
ghost use Rattle.pt_takers.specs.Sides.{is_below};
ghost use Rattle.pt_takers.specs.Chains.{Falls, IsChain, add_lower};

use crate::sides::{Side, is_below, is_less};
use pt_base::Memory;
use pt_ranges::Handler;
use std::alloc::Global;

/// Adds a row, if it leaves more places than the last.
fn add_lower(chain: &mut Vec<Handler>, side: Side, row: Handler) -> Result<(), Memory>
    ensures { IfOk result (λ _. chain.new.items ≡ add_lower side chain.old.items row) }
{
    if let Some(last) = chain.last() {
        if !is_less(side, &row, last) {
            return Ok(());
        }
    }
    chain.push(row)?;
    Ok(())
}

/// The rows that leave more places than all before.
pub fn chain(alloc: Global, side: Side, rows: &[Handler]) -> Result<Vec<Handler>, Memory>
    ensures { IfOk result (λ chain. IsChain side rows.now chain.items) }
{
    let mut chain = Vec::new(alloc);
    for at in 0..rows.len() {
        add_lower(&mut chain, side, rows[at])?;
    }
    Ok(chain)
}

/// The first row of a chain on whose side a place of this bound lies.
pub fn first_below(side: Side, bound: u64, chain: &[Handler]) -> Option<Handler>
    ensures { Falls side chain.now → result ≡ find (is_below side bound) chain.now }
{
    let mut low = 0;
    let mut high = chain.len();
    while low < high {
        let middle = low + (high - low) / 2;
        if is_below(side, bound, &chain[middle]) {
            high = middle;
        } else {
            low = middle + 1;
        }
    }
    chain.get(low).copied()
}
