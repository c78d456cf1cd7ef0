//! The list of breakpoints.
ghost use Rattle.std.specs.Prelude.{◌≡◌, ◌++◌, IfOk, OnOk, string_bytes};
ghost use Rattle.pt_breakpoints_text.specs.BreakpointList.{cell, condition_line, disposition};
ghost use Rattle.pt_breakpoints_text.specs.BreakpointList.{enabled_word, head_line, heading};
ghost use Rattle.pt_breakpoints_text.specs.BreakpointList.{hits_line, ignore_line, list_text};
ghost use Rattle.pt_breakpoints_text.specs.BreakpointList.{row_text, rows_text};

use pt_base::{Memory, Text};
use pt_bdb::Breakpoint;
use std::alloc::{AllocError, Global};

/// A number at the left of four columns.
#[tactic(auto, using(crate::proofs::CellLemmas::padded_left))]
fn cell(alloc: Global, number: u32) -> Result<String, AllocError>
    ensures { IfOk result (λ t. string_bytes t ≡ cell number) }
{
    format!(in alloc; "{number:<4}")
}

fn disposition(temporary: bool) -> &'static str
    ensures { result.now ≡ disposition temporary }
{
    if temporary { "del " } else { "keep" }
}

fn enabled_word(enabled: bool) -> &'static str
    ensures { result.now ≡ enabled_word enabled }
{
    if enabled { "yes" } else { "no " }
}

/// The first line of a breakpoint.
fn head_line(alloc: Global, file: &str, breakpoint: &Breakpoint) -> Result<String, AllocError>
    ensures { IfOk result (λ t. string_bytes t ≡ head_line file.now breakpoint.now) }
{
    let cell = cell(alloc, breakpoint.number)?;
    let disposition = disposition(breakpoint.row.temporary);
    let enabled = enabled_word(breakpoint.row.enabled);
    let line = breakpoint.row.line.0;
    let number = cell.as_str();
    format!(in alloc; "{number}breakpoint   {disposition} {enabled}   at {file}:{line}\n")
}

fn push_condition(out: &mut Vec<u8>, condition: &Option<Text>) -> Result<(), Memory>
    ensures { OnOk result (out.new.items ≡ out.old.items ++ condition_line condition.now) }
{
    if let Some(condition) = condition {
        out.extend_from_slice(b"\tstop only if ")?;
        out.extend_from_slice(condition.as_str().as_bytes())?;
        out.extend_from_slice(b"\n")?;
    }
    Ok(())
}

/// What is written of a number, nothing where it is 0.
fn ignore_line(alloc: Global, count: u64) -> Result<String, AllocError>
    ensures { IfOk result (λ t. string_bytes t ≡ ignore_line count) }
{
    if count == 0 {
        return Ok(String::new(alloc));
    }
    format!(in alloc; "\tignore next {count} hits\n")
}

fn hits_line(alloc: Global, hits: u64) -> Result<String, AllocError>
    ensures { IfOk result (λ t. string_bytes t ≡ hits_line hits) }
{
    if hits == 0 {
        return Ok(String::new(alloc));
    }
    format!(in alloc; "\tbreakpoint already hit {hits} times\n")
}

/// Writes a breakpoint.
fn push_row(
    alloc: Global,
    out: &mut Vec<u8>,
    file: &str,
    breakpoint: &Breakpoint,
) -> Result<(), Memory>
    ensures { OnOk result (out.new.items ≡ out.old.items ++ row_text file.now breakpoint.now) }
{
    let head = head_line(alloc, file, breakpoint)?;
    let ignored = ignore_line(alloc, breakpoint.row.ignore)?;
    let hits = hits_line(alloc, breakpoint.row.hits)?;
    out.extend_from_slice(head.as_bytes())?;
    push_condition(out, &breakpoint.row.condition)?;
    out.extend_from_slice(ignored.as_bytes())?;
    out.extend_from_slice(hits.as_bytes())?;
    Ok(())
}

/// Writes breakpoints.
fn push_rows(
    alloc: Global,
    out: &mut Vec<u8>,
    file: &str,
    rows: &[Breakpoint],
) -> Result<(), Memory>
    ensures { OnOk result (out.new.items ≡ out.old.items ++ rows_text file.now rows.now) }
{
    for breakpoint in rows {
        push_row(alloc, out, file, breakpoint)?;
    }
    Ok(())
}

fn heading(rows: &[Breakpoint]) -> &'static str
    ensures { result.now ≡ heading rows.now }
{
    if rows.is_empty() {
        ""
    } else {
        "Num Type         Disp Enb   Where\n"
    }
}

/// Writes the list of breakpoints, over the name of the script's file. It is empty where there are
/// none.
///
/// # Errors
///
/// `Memory` for want of it.
pub fn push_breakpoints(
    alloc: Global,
    out: &mut Vec<u8>,
    file: &str,
    rows: &[Breakpoint],
) -> Result<(), Memory>
    ensures { OnOk result (out.new.items ≡ out.old.items ++ list_text file.now rows.now) }
{
    out.extend_from_slice(heading(rows).as_bytes())?;
    push_rows(alloc, out, file, rows)
}
