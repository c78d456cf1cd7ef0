//! What commands answer.
ghost use Rattle.std.specs.Prelude.{◌≡◌, ◌++◌, IfOk, OnOk, string_bytes};
ghost use Rattle.pt_pdb.specs.Answers.{answer_text, break_answer_text, crossings_text};
ghost use Rattle.pt_pdb.specs.Answers.{placed_text};

use crate::JumpReason;
use crate::jumps::jump_failed_text;
use pt_base::{Line, Memory};
use std::alloc::{AllocError, Global};

/// What a command on breakpoints answers.
#[derive(Clone, Copy, Debug, PartialEq, Eq)]
pub enum BreakAnswer {
    /// A breakpoint is set.
    Set { number: u32, line: Line },
    /// None can be set, since no act stands on the line.
    NoCode { line: Line },
    /// A breakpoint is deleted, by a command or where a temporary one stops.
    Deleted { number: u32, line: Line },
    /// It has a condition now.
    NewCondition { number: u32 },
    /// It has none any more.
    Unconditional { number: u32 },
    /// So many crossings of it are ignored.
    Ignored { number: u32, count: u64 },
    Enabled { number: u32, line: Line },
    Disabled { number: u32, line: Line },
    /// None has the number.
    NoBreakpoint { number: u32 },
}

/// What another command answers.
#[derive(Clone, Copy, Debug, PartialEq, Eq)]
pub enum Answer<'a> {
    /// The text of a value.
    Shown { text: &'a str },
    /// The class and the text of an exception, or the limit that was met.
    Raised { text: &'a str },
    /// A call would be asked.
    Refused,
    /// What stands behind `p` is no expression.
    SyntaxError,
    /// The line of `until` isn't behind the frame's.
    NotAfter { line: Line },
    JumpFailed { reason: JumpReason },
    OldestFrame,
    NewestFrame,
    /// The line, or the last one where it is empty, is no command.
    Unknown { line: &'a str },
}

/// A breakpoint and its place, behind what is told of it.
fn placed_text(
    alloc: Global,
    told: &str,
    number: u32,
    file: &str,
    line: Line,
) -> Result<String, AllocError>
    ensures { IfOk result (λ t. string_bytes t ≡ placed_text told.now number file.now line) }
{
    let at = line.0;
    format!(in alloc; "{told} {number} at {file}:{at}\n")
}

fn crossings_text(alloc: Global, number: u32, count: u64) -> Result<String, AllocError>
    ensures { IfOk result (λ t. string_bytes t ≡ crossings_text number count) }
{
    if count == 0 {
        return format!(in alloc; "Will stop next time breakpoint {number} is reached.\n");
    }
    format!(in alloc; "Will ignore next {count} crossings of breakpoint {number}.\n")
}

fn break_answer_text(alloc: Global, file: &str, answer: BreakAnswer) -> Result<String, AllocError>
    ensures { IfOk result (λ t. string_bytes t ≡ break_answer_text file.now answer) }
{
    match answer {
        BreakAnswer::Set { number, line } => placed_text(alloc, "Breakpoint", number, file, line),
        BreakAnswer::NoCode { line } => format!(in alloc; "*** No code at line {}\n", line.0),
        BreakAnswer::Deleted { number, line } => {
            placed_text(alloc, "Deleted breakpoint", number, file, line)
        }
        BreakAnswer::NewCondition { number } => {
            format!(in alloc; "New condition set for breakpoint {number}.\n")
        }
        BreakAnswer::Unconditional { number } => {
            format!(in alloc; "Breakpoint {number} is now unconditional.\n")
        }
        BreakAnswer::Ignored { number, count } => crossings_text(alloc, number, count),
        BreakAnswer::Enabled { number, line } => {
            placed_text(alloc, "Enabled breakpoint", number, file, line)
        }
        BreakAnswer::Disabled { number, line } => {
            placed_text(alloc, "Disabled breakpoint", number, file, line)
        }
        BreakAnswer::NoBreakpoint { number } => {
            format!(in alloc; "*** No breakpoint numbered {number}\n")
        }
    }
}

/// Writes what a command on breakpoints answers, over the name of the script's file.
///
/// # Errors
///
/// `Memory` for want of it.
pub fn push_break_answer(
    alloc: Global,
    out: &mut Vec<u8>,
    file: &str,
    answer: BreakAnswer,
) -> Result<(), Memory>
    ensures { OnOk result (out.new.items ≡ out.old.items ++ break_answer_text file.now answer) }
{
    let text = break_answer_text(alloc, file, answer)?;
    out.extend_from_slice(text.as_bytes())?;
    Ok(())
}

fn answer_text(alloc: Global, answer: Answer) -> Result<String, AllocError>
    ensures { IfOk result (λ t. string_bytes t ≡ answer_text answer.entry) }
{
    match answer {
        Answer::Shown { text } => format!(in alloc; "{text}\n"),
        Answer::Raised { text } => format!(in alloc; "*** {text}\n"),
        Answer::Refused => String::from_str(alloc, "*** Refused: a call\n"),
        Answer::SyntaxError => String::from_str(alloc, "*** SyntaxError\n"),
        Answer::NotAfter { line } => {
            format!(in alloc; "*** Line {} is not after the current line\n", line.0)
        }
        Answer::JumpFailed { reason } => jump_failed_text(alloc, reason),
        Answer::OldestFrame => String::from_str(alloc, "*** Oldest frame\n"),
        Answer::NewestFrame => String::from_str(alloc, "*** Newest frame\n"),
        Answer::Unknown { line } => format!(in alloc; "*** Unknown command: {line}\n"),
    }
}

/// Writes what another command answers.
///
/// # Errors
///
/// `Memory` for want of it.
pub fn push_answer(alloc: Global, out: &mut Vec<u8>, answer: Answer) -> Result<(), Memory>
    ensures { OnOk result (out.new.items ≡ out.old.items ++ answer_text answer.entry) }
{
    let text = answer_text(alloc, answer)?;
    out.extend_from_slice(text.as_bytes())?;
    Ok(())
}
