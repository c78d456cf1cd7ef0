//! The acts of blocks, each with its line and, where a loop tests again with it, a star.

use pt_acts::ActTable;
use pt_base::{ActNo, BlockId};
use pt_tree::ActRow;
use test_notation::{Printed, at, close, word};

/// A script of a table has fewer blocks.
const BLOCKS: u32 = 64;

fn act(out: &mut String, row: ActRow) -> Printed {
    write!(out, " {:?}", row.kind)?;
    if row.again {
        out.push_str("*")?;
    }
    at(out, row.line)
}

fn block(out: &mut String, table: &ActTable, block: BlockId, count: u32) -> Printed {
    write!(out, " ({}", block.0)?;
    for number in 0..count {
        match table.get(block, ActNo(number)) {
            Some(row) => act(out, row)?,
            None => word(out, "-")?,
        }
    }
    match table.get(block, ActNo(count)) {
        Some(_) => word(out, "more")?,
        None => {}
    }
    close(out)
}

/// The blocks that have acts, by their numbers.
pub fn acts_of(out: &mut String, table: &ActTable) -> Printed {
    for number in 0..BLOCKS {
        let count = table.count(BlockId(number));
        if count > 0 {
            block(out, table, BlockId(number), count)?;
        }
    }
    Ok(())
}
