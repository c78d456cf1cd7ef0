//! What is told of the tables of blocks, of what Leaves lack, of Leaves that are lost, of depth and of
//! silent loops.

use crate::blocks::NoRow;
use pt_base::Pc;
use pt_block_limits::{Cycles, is_too_deep, lost_leave, silent_loops};
use pt_block_tables::first_bad_row;
use pt_budget::Budget;
use pt_code::{Code, CodeBlock};
use pt_common_slots::common_slots;
use pt_places::Places;
use pt_takers::Takers;
use pt_verify_depths::{Sizes, sizes};
use pt_verify_leaves::{HeldLeaves, held_leaves, leaves_lack};
use std::alloc::Global;
use std::fmt::Write;

/// The steps that held Leaves of a block may take.
const MOST_WAYS: u64 = 0x0040_0000;

/// What places of a block let go on of Leaves that they hold.
fn held_in(
    alloc: Global,
    block: &CodeBlock,
    places: &Places,
    takers: &Takers,
    table: &[Option<u64>],
    limit: Pc,
) -> Result<HeldLeaves, NoRow> {
    let joins = common_slots(alloc, block, places, table, limit)?;
    let mut budget = Budget::new(MOST_WAYS);
    Ok(held_leaves(alloc, places, takers, &joins, table, limit, &mut budget)?)
}

/// Writes a word with a number, if it is told.
fn write_at(line: &mut String, word: &str, told: Option<usize>) -> Result<(), NoRow> {
    if let Some(number) = told {
        write!(line, "{word} {number} ")?;
    }
    Ok(())
}

/// Writes what is told of a block, of which sizes agree if at all.
fn write_limits(
    line: &mut String,
    alloc: Global,
    places: &Places,
    block: &CodeBlock,
    table: &[Option<u64>],
) -> Result<(), NoRow> {
    let limit = Pc(u32::try_from(block.instructions.len()).map_err(|_| NoRow)?);
    let takers = Takers::build(alloc, block.handlers.as_slice(), table.len() + 1)?;
    let held = held_in(alloc, block, places, &takers, table, limit)?;
    if leaves_lack(places, &takers, table, &held, limit)? {
        line.push_str("few ")?;
    }
    write_at(line, "lost", lost_leave(places, table)?)?;
    if is_too_deep(table) {
        line.push_str("deep ")?;
    }
    let HeldLeaves { bundles, held } = held;
    match silent_loops(alloc, block, places, table, bundles, &held)? {
        Cycles::Ranks(_) => Ok(()),
        Cycles::Least(place) => write_at(line, "loop", Some(place)),
    }
}

/// Writes what is told of a block: the first row that fails, and where sizes agree whether a Leave
/// has fewer slots than its target, the least Leave that is lost, whether a place is too deep, and
/// the least place of a silent loop.
pub fn limits_in(
    line: &mut String,
    alloc: Global,
    code: &Code,
    block: &CodeBlock,
) -> Result<(), NoRow> {
    let places = Places::make(alloc, block)?;
    write_at(line, "row", first_bad_row(&places, block)?)?;
    if let Sizes::Agree(table) = sizes(alloc, code, block)? {
        write_limits(line, alloc, &places, block, &table)?;
    }
    line.push_str(";")?;
    Ok(())
}
