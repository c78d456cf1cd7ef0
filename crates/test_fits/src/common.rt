//! Which slots are the same at places of blocks that agree.
ghost use Rattle.std.specs.Prelude.{◌≡◌};
ghost use Rattle.pt_joins.specs.Joins.{IsForest};

use crate::blocks::NoRow;
use pt_base::Pc;
use pt_code::{Code, CodeBlock};
use pt_common_slots::{Joins, common_slots, in_common};
use pt_places::Places;
use pt_verify_depths::{Sizes, sizes};
use std::alloc::Global;
use std::fmt::Write;

/// The first place with which one has a slot in common.
fn first_with(joins: &Joins, slot: u64, at: u32) -> u32
    requires forest { IsForest joins.now.nodes.items }
{
    for place in 0..at {
        if in_common(joins, slot, Pc(place), Pc(at)) {
            return place;
        }
    }
    at
}

/// Writes it for each slot of a place, from the lowest.
fn write_place(line: &mut String, joins: &Joins, at: u32, size: u64) -> Result<(), NoRow>
    requires forest { IsForest joins.now.nodes.items }
{
    write!(line, "{at}:")?;
    for slot in 0..size {
        let first = first_with(joins, slot, at);
        write!(line, "{first},")?;
    }
    line.push_str(" ")?;
    Ok(())
}

fn write_common(
    line: &mut String,
    alloc: Global,
    block: &CodeBlock,
    table: &[Option<u64>],
) -> Result<(), NoRow> {
    let places = Places::make(alloc, block)?;
    let last = u32::try_from(block.instructions.len()).map_err(|_| NoRow)?;
    let joins = common_slots(alloc, block, &places, table, Pc(last))?;
    for at in 0..table.len() {
        let pc = u32::try_from(at).map_err(|_| NoRow)?;
        if let Some(size) = table[at] {
            write_place(line, &joins, pc, size)?;
        }
    }
    Ok(())
}

/// Writes which slots of a block are in common, if its sizes agree.
pub fn common_in(
    line: &mut String,
    alloc: Global,
    code: &Code,
    block: &CodeBlock,
) -> Result<(), NoRow> {
    if let Sizes::Agree(table) = sizes(alloc, code, block)? {
        write_common(line, alloc, block, &table)?;
    }
    line.push_str(";")?;
    Ok(())
}
