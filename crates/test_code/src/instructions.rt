//! What is answered of instructions.

use crate::notation::{NoRow, bytes_of, number};
use pt_base::Seq;
use pt_instr::{decode, effect, encode, name};
use std::alloc::Global;

/// Writes what stands at a place of the bytes: the name of the instruction, the place behind it, and
/// the bytes that it is written as. The row is the place, and the bytes.
pub fn decoded(line: &mut String, alloc: Global, row: &str) -> Result<(), NoRow> {
    let (at, words) = row.split_once(" ").unwrap_or((row, ""));
    let bytes = bytes_of(alloc, words)?;
    let Some((instr, end)) = decode(bytes.as_slice(), number(at)?) else {
        line.push_str("refused")?;
        return Ok(());
    };
    let mut written = Seq::new(alloc);
    encode(&instr, &mut written)?;
    let written = hex::encode(alloc, written.as_slice())?;
    write!(line, "{} {end} {written}", name(&instr))?;
    Ok(())
}

/// Writes what an instruction takes and gives. The row is how many free names its block has, and its
/// bytes.
pub fn effects(line: &mut String, alloc: Global, row: &str) -> Result<(), NoRow> {
    let (free, words) = row.split_once(" ").ok_or(NoRow)?;
    let free = free.parse::<u32>().map_err(|_| NoRow)?;
    let bytes = bytes_of(alloc, words)?;
    let (instr, _) = decode(bytes.as_slice(), 0).ok_or(NoRow)?;
    let row = effect(&instr, free);
    write!(line, "takes {:?}", row.takes.runs())?;
    if let Some(gives) = &row.gives {
        write!(line, ", gives {:?}", gives.runs())?;
    }
    line.push_str(if row.leaves { ", may leave" } else { "" })?;
    Ok(())
}
