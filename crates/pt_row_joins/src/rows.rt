//! Neighbours are joined as deep as the deepest row around both, and each row joins its first place
//! to its target: so a row is looked at once, however many places it covers.
ghost use Rattle.std.specs.Prelude.{◌≡◌, ◌↔◌, ◌++◌, length, List, Option, ℕ, IfOk, option_to_list};
ghost use Rattle.pt_joins.specs.Joins.{AreWithin, Joined};
ghost use Rattle.pt_row_joins.specs.Rows.{AreNarrowed, IsChain, IsLanding, AreSizedPlaces, Lists, Under, landing_join, narrow_row};

use crate::sized::SizedPlaces;
use pt_base::{Memory, Pc};
use pt_joins::Join;
use pt_ranges::Handler;
use pt_sizes::Waiting;
use std::alloc::Global;

/// Adds a pair, if there is one.
///
/// # Errors
///
/// `Memory` for want of it.
pub fn add(joins: &mut Vec<Join>, join: Option<Join>) -> Result<(), Memory>
    ensures { IfOk result (λ _. joins.new.items ≡ joins.old.items ++ option_to_list join) }
{
    match join {
        None => Ok(()),
        Some(join) => {
            joins.push(join)?;
            Ok(())
        }
    }
}

fn pc_of(at: usize) -> Result<Pc, Memory>
    ensures { IfOk result (λ pc. pc.0 ≡ at) }
{
    match u32::try_from(at) {
        Ok(pc) => Ok(Pc(pc)),
        Err(_) => Err(Memory),
    }
}

/// The row over the numbers of places that have sizes, up to the last but one of them.
fn narrow(reached: &SizedPlaces, row: &Handler, count: usize) -> Result<Option<Handler>, Memory>
    ensures { IfOk result (λ h. (sizes : List (Option ℕ)) → AreSizedPlaces sizes reached.now
        → length sizes ≡ count → h ≡ narrow_row sizes row.now) }
{
    let from = reached.rank(row.from.0 as usize);
    let to = reached.rank(row.to.0 as usize);
    if from >= to || row.target.0 as usize >= count {
        return Ok(None);
    }
    let from = pc_of(from)?;
    let to = pc_of(to - 1)?;
    Ok(Some(Handler {
        from,
        to,
        target: row.target,
        depth: row.depth,
        always: row.always,
    }))
}

fn add_row(rows: &mut Vec<Handler>, row: Option<Handler>) -> Result<(), Memory>
    ensures { IfOk result (λ _. rows.new.items ≡ rows.old.items ++ option_to_list row) }
{
    match row {
        None => Ok(()),
        Some(row) => {
            rows.push(row)?;
            Ok(())
        }
    }
}

/// The rows over the numbers of places that have sizes.
fn narrowed(
    alloc: Global,
    reached: &SizedPlaces,
    rows: &[Handler],
    count: usize,
) -> Result<Vec<Handler>, Memory>
    ensures { IfOk result (λ all. (sizes : List (Option ℕ)) → AreSizedPlaces sizes reached.now
        → length sizes ≡ count → AreNarrowed sizes rows.now all.items) }
{
    let mut all = Vec::new(alloc);
    for row in rows.iter() {
        add_row(&mut all, narrow(reached, row, count)?)?;
    }
    Ok(all)
}

/// Each place is joined to the next one as deep as the deepest row around both.
fn chain_joins(alloc: Global, places: &[usize], deepest: &[u32]) -> Result<Vec<Join>, Memory>
    requires { length deepest.now ≡ length places.now }
    ensures { IfOk result (λ joins. Lists (IsChain places.now deepest.now) joins.items) }
{
    let mut joins = Vec::new(alloc);
    for number in 1..places.len() {
        joins.push(Join {
            one: places[number - 1],
            other: places[number],
            levels: deepest[number - 1] as u64,
        })?;
    }
    Ok(joins)
}

/// The first place under a row, joined to its target.
fn landing_join(places: &[usize], row: &Handler) -> Option<Join>
    ensures { result ≡ landing_join places.now row.now }
{
    let from = row.from.0 as usize;
    if from < places.len() {
        Some(Join {
            one: places[from],
            other: row.target.0 as usize,
            levels: row.depth as u64,
        })
    } else {
        None
    }
}

fn landing_joins(alloc: Global, places: &[usize], rows: &[Handler]) -> Result<Vec<Join>, Memory>
    ensures { IfOk result (λ joins. Lists (IsLanding places.now rows.now) joins.items) }
{
    let mut joins = Vec::new(alloc);
    for row in rows.iter() {
        add(&mut joins, landing_join(places, row))?;
    }
    Ok(joins)
}

/// Pairs that on each level join the places that have sizes to the targets of the handler rows over
/// them that leave more slots than that. Of n places and r rows they are no more than n + r.
///
/// # Errors
///
/// `Memory` for want of it, and where there are 2^32 places or more.
pub fn row_joins(
    alloc: Global,
    sizes: &[Option<u64>],
    rows: &[Handler],
) -> Result<Vec<Join>, Memory>
    ensures within { IfOk result (λ joins. AreWithin (length sizes.now) joins.items) }
    ensures exact { IfOk result (λ joins. (level one other : ℕ)
        → Joined joins.items level one other ↔ Under sizes.now rows.now level one other) }
{
    let reached = SizedPlaces::make(alloc, sizes)?;
    let count = reached.places.len();
    let narrow = narrowed(alloc, &reached, rows, sizes.len())?;
    let waiting = Waiting::build(alloc, &narrow, count)?;
    let deepest = waiting.deepest(alloc, count)?;
    let mut joins = chain_joins(alloc, &reached.places, &deepest)?;
    let mut landings = landing_joins(alloc, &reached.places, &narrow)?;
    joins.append(&mut landings)?;
    Ok(joins)
}
