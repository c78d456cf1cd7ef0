//! Commands on breakpoints.
ghost use Rattle.std.specs.Prelude.{◌≡◌, ◌⊎◌, ◌++◌, ◌<◌, OnOk, OnErr, []};
ghost use Rattle.pt_bdb.specs.Breakpoints.{with_condition, with_enabled, with_ignore};
ghost use Rattle.pt_bdb.specs.Breakpoints.{with_row, with_rows, without};
ghost use Rattle.pt_pdb.specs.Answers.{break_answer_text};
ghost use Rattle.pt_break_commands.specs.BreakCommands.{all_deleted_text, clear_answer};
ghost use Rattle.pt_break_commands.specs.BreakCommands.{condition_answer, enable_answer};
ghost use Rattle.pt_break_commands.specs.BreakCommands.{ignore_answer};
ghost use Rattle.pt_break_commands.specs.BreakCommands.{set_answer, with_set};

use crate::answers::{answer_of_set, clear_answer, condition_answer, enable_answer, ignore_answer};
use pt_base::{Line, Memory, Text};
use pt_bdb::{Breakpoint, Breaks, LAST_NUMBER};
use pt_pdb::{BreakAnswer, push_break_answer};
use std::alloc::Global;

/// Sets a breakpoint, and writes the answer.
///
/// # Errors
///
/// `Memory` for want of it. The breakpoint is then set without its answer, or not set.
pub fn set(
    alloc: Global,
    out: &mut Vec<u8>,
    file: &str,
    breaks: &mut Breaks,
    line: Line,
    temporary: bool,
    condition: Option<Text>,
) -> Result<(), Memory>
    requires { breaks.old.last < LAST_NUMBER }
    ensures text { OnOk result (out.new.items
        ≡ out.old.items ++ break_answer_text file.now (set_answer breaks.old line)) }
    ensures ok { OnOk result (breaks.new ≡ with_set line temporary condition breaks.old) }
    ensures err { OnErr result ((breaks.new ≡ breaks.old)
        ⊎ (breaks.new ≡ with_set line temporary condition breaks.old)) }
{
    let answer = answer_of_set(breaks, line, temporary, condition)?;
    push_break_answer(alloc, out, file, answer)
}

/// Deletes a breakpoint, behind the answer.
///
/// # Errors
///
/// `Memory` for want of it. The breakpoints are then as before.
pub fn clear(
    alloc: Global,
    out: &mut Vec<u8>,
    file: &str,
    breaks: &mut Breaks,
    number: u32,
) -> Result<(), Memory>
    ensures text { OnOk result (out.new.items
        ≡ out.old.items ++ break_answer_text file.now (clear_answer number breaks.old)) }
    ensures ok { OnOk result
        (breaks.new ≡ with_rows (without number breaks.old.rows) breaks.old) }
    ensures err { OnErr result (breaks.new ≡ breaks.old) }
{
    let answer = clear_answer(breaks, number);
    push_break_answer(alloc, out, file, answer)?;
    breaks.clear(number).ok();
    Ok(())
}

/// Writes that breakpoints are deleted.
fn push_deleted(
    alloc: Global,
    out: &mut Vec<u8>,
    file: &str,
    rows: &[Breakpoint],
) -> Result<(), Memory>
    ensures { OnOk result (out.new.items ≡ out.old.items ++ all_deleted_text file.now rows.now) }
{
    for breakpoint in rows {
        let answer = BreakAnswer::Deleted {
            number: breakpoint.number,
            line: breakpoint.row.line,
        };
        push_break_answer(alloc, out, file, answer)?;
    }
    Ok(())
}

/// Deletes all breakpoints, behind the answer.
///
/// # Errors
///
/// `Memory` for want of it. The breakpoints are then as before.
pub fn clear_all(
    alloc: Global,
    out: &mut Vec<u8>,
    file: &str,
    breaks: &mut Breaks,
) -> Result<(), Memory>
    ensures text { OnOk result (out.new.items
        ≡ out.old.items ++ all_deleted_text file.now breaks.old.rows) }
    ensures ok { OnOk result (breaks.new ≡ with_rows [] breaks.old) }
    ensures err { OnErr result (breaks.new ≡ breaks.old) }
{
    push_deleted(alloc, out, file, breaks.rows())?;
    breaks.clear_all();
    Ok(())
}

/// Gives a breakpoint a condition or takes it, behind the answer.
///
/// # Errors
///
/// `Memory` for want of it. The breakpoints are then as before.
pub fn condition(
    alloc: Global,
    out: &mut Vec<u8>,
    file: &str,
    breaks: &mut Breaks,
    number: u32,
    condition: Option<Text>,
) -> Result<(), Memory>
    ensures text { OnOk result (out.new.items ≡ out.old.items
        ++ break_answer_text file.now (condition_answer number condition breaks.old)) }
    ensures ok { OnOk result (breaks.new
        ≡ with_rows (with_row number (with_condition condition) breaks.old.rows) breaks.old) }
    ensures err { OnErr result (breaks.new ≡ breaks.old) }
{
    let answer = condition_answer(breaks, number, &condition);
    push_break_answer(alloc, out, file, answer)?;
    breaks.condition(number, condition).ok();
    Ok(())
}

/// Says how many crossings of a breakpoint are ignored, behind the answer.
///
/// # Errors
///
/// `Memory` for want of it. The breakpoints are then as before.
pub fn ignore(
    alloc: Global,
    out: &mut Vec<u8>,
    file: &str,
    breaks: &mut Breaks,
    number: u32,
    count: u64,
) -> Result<(), Memory>
    ensures text { OnOk result (out.new.items
        ≡ out.old.items ++ break_answer_text file.now (ignore_answer number count breaks.old)) }
    ensures ok { OnOk result (breaks.new
        ≡ with_rows (with_row number (with_ignore count) breaks.old.rows) breaks.old) }
    ensures err { OnErr result (breaks.new ≡ breaks.old) }
{
    let answer = ignore_answer(breaks, number, count);
    push_break_answer(alloc, out, file, answer)?;
    breaks.ignore(number, count).ok();
    Ok(())
}

/// Switches a breakpoint on or off, behind the answer.
///
/// # Errors
///
/// `Memory` for want of it. The breakpoints are then as before.
pub fn enable(
    alloc: Global,
    out: &mut Vec<u8>,
    file: &str,
    breaks: &mut Breaks,
    number: u32,
    on: bool,
) -> Result<(), Memory>
    ensures text { OnOk result (out.new.items
        ≡ out.old.items ++ break_answer_text file.now (enable_answer number on breaks.old)) }
    ensures ok { OnOk result (breaks.new
        ≡ with_rows (with_row number (with_enabled on) breaks.old.rows) breaks.old) }
    ensures err { OnErr result (breaks.new ≡ breaks.old) }
{
    let answer = enable_answer(breaks, number, on);
    push_break_answer(alloc, out, file, answer)?;
    breaks.enable(number, on).ok();
    Ok(())
}
