//! The always rows of a block, so laid that the first to take a Leave is found in a few steps.
ghost use Rattle.std.specs.Prelude.{◌≡◌, ◌<◌, ℕ, List, Option, filter, option_map, IfOk};
ghost use Rattle.pt_ranges.specs.declared.handlers.Handler.{Handler};
ghost use Rattle.pt_ranges.specs.Rows.{covers};
ghost use Rattle.sem_fits.specs.fits.Leaves.{taker};
ghost use Rattle.pt_takers.specs.Numbers.{AreNumbered, add_numbered, numbered};
ghost use Rattle.pt_takers.specs.Takers.{TellsTakers};

use crate::sides::{Side, bound};
use crate::stretches::{chains, first_up, sooner};
use pt_base::{Memory, Pc};
use pt_ranges::Handler;
use pt_sizes::Waiting;
use std::alloc::Global;

/// The always rows of a block by the stretches of places that they cover, for each side the chains
/// of these.
#[derive(Debug, Drop)]
pub struct Takers {
    rows: Vec<Handler>,
    behind: Vec<Vec<Vec<Handler>>>,
    before: Vec<Vec<Vec<Handler>>>,
}

/// A row with its number for its target, so deep that the first rows are the deepest.
fn numbered(row: &Handler, number: u32) -> Handler
    ensures { result ≡ numbered number row.now }
{
    Handler {
        target: Pc(number),
        depth: u32::MAX - number,
        ..*row
    }
}

/// Adds a row that is an always row, with its number.
fn add_numbered(found: &mut Vec<Handler>, row: &Handler, number: u32) -> Result<(), Memory>
    ensures { IfOk result (λ _. found.new.items ≡ add_numbered found.old.items number row.now) }
{
    if row.always {
        found.push(numbered(row, number))?;
    }
    Ok(())
}

/// The always rows with their numbers.
fn always_rows(alloc: Global, rows: &[Handler]) -> Result<Vec<Handler>, Memory>
    ensures { IfOk result (λ found. AreNumbered rows.now found.items) }
{
    let mut found = Vec::new(alloc);
    for at in 0..rows.len() {
        let Ok(number) = u32::try_from(at) else {
            return Err(Memory);
        };
        add_numbered(&mut found, &rows[at], number)?;
    }
    Ok(found)
}

impl Takers {
    /// Lays the handler rows of a block that has so many places. For n places and r always rows it
    /// takes time and memory O(n + r log n), and none for the places where r is 0.
    ///
    /// # Errors
    ///
    /// `Memory` for want of it, and where there are more than 2^32 rows, as there are in no code
    /// file.
    pub fn build(alloc: Global, rows: &[Handler], count: usize) -> Result<Takers, Memory>
        ensures { IfOk result (λ takers. TellsTakers rows.now count takers) }
    {
        let always = always_rows(alloc, rows)?;
        let waiting = Waiting::build_if_any(alloc, &always, count)?;
        Ok(Takers {
            rows: Vec::from_slice(alloc, rows)?,
            behind: chains(alloc, Side::Behind, &waiting.levels)?,
            before: chains(alloc, Side::Before, &waiting.levels)?,
        })
    }

    /// Of the rows that cover a place the first always row that doesn't cover the target: it takes
    /// a Leave from there (Language Reference 7.9, 8.4.4). However many rows lie over the place,
    /// the time is O(log^2 n), and it takes no memory.
    pub fn first(&self, pc: Pc, target: Pc) -> Option<Handler>
        ensures { (rows : List Handler) (count : ℕ) → TellsTakers rows count self.now
            → pc.0 < count → result ≡ taker (filter (λ row. covers row pc) rows) target.0 }
    {
        let at = pc.0 as usize;
        let behind = first_up(Side::Behind, bound(Side::Behind, target), &self.behind, at);
        let before = first_up(Side::Before, bound(Side::Before, target), &self.before, at);
        match sooner(behind, before) {
            None => None,
            Some(row) => self.rows.get(row.target.0 as usize).copied(),
        }
    }
}
