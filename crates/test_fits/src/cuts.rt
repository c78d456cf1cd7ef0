//! Under which handler row of a block cuts differ, where a row is too deep or slots are too few.

use crate::blocks::NoRow;
use pt_code::{Code, CodeBlock};
use pt_cut_failures::first_differing;
use pt_places::Places;
use pt_verify_depths::{Sizes, sizes};
use std::alloc::Global;
use std::fmt::Write;

/// The place up to which sizes disagree, and of how many rows cuts are asked.
fn asked(alloc: Global, code: &Code, block: &CodeBlock) -> Result<Option<(usize, usize)>, NoRow> {
    match sizes(alloc, code, block)? {
        Sizes::TooDeep(place, row) => Ok(Some((place, row))),
        Sizes::TooFew(place) => Ok(Some((place, block.handlers.as_slice().len()))),
        _ => Ok(None),
    }
}

/// Writes `cut` and the number of the first row under which cuts differ, before the one that is too
/// deep if one is; or `none`.
pub fn cuts_in(
    line: &mut String,
    alloc: Global,
    code: &Code,
    block: &CodeBlock,
) -> Result<(), NoRow> {
    if let Some((place, rows)) = asked(alloc, code, block)? {
        let places = Places::make(alloc, block)?;
        match first_differing(alloc, code, block, &places, place, rows)? {
            Some(row) => write!(line, "cut {row}")?,
            None => line.push_str("none")?,
        }
    }
    line.push_str(";")?;
    Ok(())
}
