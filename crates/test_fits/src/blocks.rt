//! What is told of the sizes of the places of blocks.

use pt_base::Memory;
use pt_code::{Code, CodeBlock};
use pt_verify_depths::{Sizes, sizes};
use std::alloc::{AllocError, AllocFailed, Global};
use std::fmt::Write;

/// The line is no row, or memory ran out.
#[derive(Clone, Copy, Debug)]
pub struct NoRow;

impl From<Memory> for NoRow {
    fn from(_: Memory) -> Self {
        NoRow
    }
}

impl From<AllocError> for NoRow {
    fn from(_: AllocError) -> Self {
        NoRow
    }
}

impl<T: Drop> From<AllocFailed<T>> for NoRow {
    fn from(_: AllocFailed<T>) -> Self {
        NoRow
    }
}

impl From<std::fmt::Error> for NoRow {
    fn from(_: std::fmt::Error) -> Self {
        NoRow
    }
}

/// Writes what is told of the sizes of a block, or `pc:size` for each place that gets one.
pub fn sizes_in(
    line: &mut String,
    alloc: Global,
    code: &Code,
    block: &CodeBlock,
) -> Result<(), NoRow> {
    match sizes(alloc, code, block)? {
        Sizes::Meet(pc) => write!(line, "meet {pc};")?,
        Sizes::TooDeep(pc, row) => write!(line, "row {row} at {pc};")?,
        Sizes::TooFew(pc) => write!(line, "few {pc};")?,
        Sizes::Agree(table) => {
            for (pc, size) in table.iter().enumerate() {
                if let Some(size) = size {
                    write!(line, "{pc}:{size} ")?;
                }
            }
            line.push_str(";")?;
        }
    }
    Ok(())
}
