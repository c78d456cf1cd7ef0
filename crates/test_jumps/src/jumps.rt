//! Where jumps lead.

use crate::no_row::NoRow;
use pt_base::{BlockId, Line, Pc};
use pt_code::Code;
use pt_code_slots::code_slots;
use pt_jump::JumpErr;
use std::alloc::Global;
use std::fmt::Write;

fn number(text: &str) -> Result<u32, NoRow> {
    text.parse().map_err(|_| NoRow)
}

/// Writes where a jump leads, and with how many slots, or why none is permitted.
pub fn jump_in(line: &mut String, alloc: Global, code: &Code, words: &str) -> Result<(), NoRow> {
    let (block, words) = words.split_once(" ").ok_or(NoRow)?;
    let (from, to) = words.split_once(" ").ok_or(NoRow)?;
    let id = BlockId(number(block)?);
    let blocks = code.blocks.as_slice();
    let block = blocks.get(id.0 as usize).ok_or(NoRow)?;
    let slots = code_slots(alloc, code)?;
    let starts = block.starts.as_slice();
    match slots.target(id, starts, Pc(number(from)?), Line(number(to)?)) {
        Ok(land) => write!(line, "{} {}", land.pc.0, land.depth)?,
        Err(JumpErr::NoStatement) => line.push_str("no statement")?,
        Err(JumpErr::IntoBlock) => line.push_str("into block")?,
        Err(JumpErr::OutOfFinally) => line.push_str("out of finally")?,
    }
    Ok(())
}
