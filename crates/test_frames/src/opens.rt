//! A row of activations is words: `o5` opens five, and answers how many were opened and why no
//! more; `c5` closes five or all, and answers how many.

use crate::no_row::NoRow;
use pt_base::{BlockId, Seq};
use pt_bind::Locals;
use pt_frames::{Frames, OpenErr, Purpose};
use pt_heap::Seed;
use std::alloc::Global;

fn no_locals(alloc: Global) -> Locals {
    Locals {
        values: Seq::new(alloc),
        star: Seq::new(alloc),
        stars: Seq::new(alloc),
        cells: Seq::new(alloc),
    }
}

fn show(line: &mut String, alloc: Global, count: u32) -> Result<(), NoRow> {
    let digits = format!(in alloc; "{count}")?;
    line.push_str(digits.as_str())?;
    Ok(())
}

/// Opens so many activations, and writes how many were opened, and why no more.
fn open(line: &mut String, alloc: Global, frames: &mut Frames, count: u32) -> Result<(), NoRow> {
    for number in 0..count {
        match frames.open(BlockId(number), false, no_locals(alloc), Purpose::Result) {
            Ok(_) => {}
            Err(OpenErr::TooDeep) => {
                show(line, alloc, number)?;
                line.push_str(" TooDeep")?;
                return Ok(());
            }
            Err(OpenErr::Memory) => return Err(NoRow),
        }
    }
    show(line, alloc, count)
}

/// Closes so many activations, or all, and writes how many.
fn close(line: &mut String, alloc: Global, frames: &mut Frames, count: u32) -> Result<(), NoRow> {
    for number in 0..count {
        if frames.depth() == 0 {
            return show(line, alloc, number);
        }
        frames.close();
    }
    show(line, alloc, count)
}

fn count(word: &str) -> Result<u32, NoRow> {
    match word.parse::<u32>() {
        Ok(count) => Ok(count),
        Err(_) => Err(NoRow),
    }
}

pub fn answers(line: &mut String, alloc: Global, row: &str) -> Result<(), NoRow> {
    let mut frames = Frames::new(alloc, Seed::of(row.as_bytes()));
    let mut is_first = true;
    for word in row.split_whitespace() {
        if !is_first {
            line.push_str(" ")?;
        }
        is_first = false;
        if let Some(rest) = word.strip_prefix("o") {
            open(line, alloc, &mut frames, count(rest)?)?;
        } else if let Some(rest) = word.strip_prefix("c") {
            close(line, alloc, &mut frames, count(rest)?)?;
        } else {
            return Err(NoRow);
        }
    }
    Ok(())
}
