//! Single answers.
use crate::no_row::NoRow;
use crate::words::{number, text};
use pt_base::Line;
use pt_commands::Command;
use pt_pdb::{
    Answer, BreakAnswer, JumpReason, JumpRefused, jump_reason, push_answer, push_break_answer,
    push_prompt, refused_reason, shown_line,
};
use std::alloc::Global;
use test_notation::text_of;

fn refused(word: &str) -> Result<JumpRefused, NoRow> {
    match word {
        "NoStatement" => Ok(JumpRefused::NoStatement),
        "IntoBlock" => Ok(JumpRefused::IntoBlock),
        "OutOfFinally" => Ok(JumpRefused::OutOfFinally),
        _ => Err(NoRow),
    }
}

/// Why a jump fails: whether the script has ended, whether the event is a line and the frame the bottom
/// one, what the run says, and the line.
fn reason(words: &str) -> Result<JumpReason, NoRow> {
    let mut words = words.split(" ");
    let ended = words.next().ok_or(NoRow)? == "ended";
    let at_line = words.next().ok_or(NoRow)? == "line";
    let bottom = words.next().ok_or(NoRow)? == "bottom";
    let refused = refused(words.next().ok_or(NoRow)?)?;
    let line = Line(number(words.next().ok_or(NoRow)?)?);
    Ok(jump_reason(ended, at_line, bottom).unwrap_or(refused_reason(refused, line)))
}

/// Writes a line of commands as it is, and what `command` says of it.
pub fn write_line(out: &mut Vec<u8>, alloc: Global, line: &[u8]) -> Result<(), NoRow> {
    let line = shown_line(line);
    push_prompt(out, line)?;
    let command = Command::parse(alloc, line)?;
    let told = format!(in alloc; "{command:?}\n")?;
    out.extend_from_slice(told.as_bytes())?;
    Ok(())
}

/// The answer of a command on a breakpoint: its kind, and two numbers.
fn break_answer(words: &str) -> Result<BreakAnswer, NoRow> {
    let mut words = words.split(" ");
    let kind = words.next().ok_or(NoRow)?;
    let number = number(words.next().ok_or(NoRow)?)?;
    let second = words.next().ok_or(NoRow)?;
    let count = second.parse::<u64>().map_err(|_| NoRow)?;
    let line = Line(second.parse::<u32>().unwrap_or(0));
    match kind {
        "set" => Ok(BreakAnswer::Set { number, line }),
        "no_code" => Ok(BreakAnswer::NoCode { line }),
        "deleted" => Ok(BreakAnswer::Deleted { number, line }),
        "condition" => Ok(BreakAnswer::NewCondition { number }),
        "unconditional" => Ok(BreakAnswer::Unconditional { number }),
        "ignored" => Ok(BreakAnswer::Ignored { number, count }),
        "enabled" => Ok(BreakAnswer::Enabled { number, line }),
        "disabled" => Ok(BreakAnswer::Disabled { number, line }),
        "none" => Ok(BreakAnswer::NoBreakpoint { number }),
        _ => Err(NoRow),
    }
}

/// The answer of a kind, with its text where it has one.
fn plain_answer<'a>(kind: &str, text: &'a str) -> Result<Answer<'a>, NoRow> {
    match kind {
        "shown" => Ok(Answer::Shown { text }),
        "raised" => Ok(Answer::Raised { text }),
        "refused" => Ok(Answer::Refused),
        "syntax" => Ok(Answer::SyntaxError),
        "oldest" => Ok(Answer::OldestFrame),
        "newest" => Ok(Answer::NewestFrame),
        "unknown" => Ok(Answer::Unknown { line: text }),
        _ => Err(NoRow),
    }
}

fn write_answer(out: &mut Vec<u8>, alloc: Global, kind: &str, told: &str) -> Result<(), NoRow> {
    let text = text(alloc, told)?;
    let answer = plain_answer(kind, text.as_str())?;
    Ok(push_answer(alloc, out, answer)?)
}

/// Writes an answer. A row has its kind, and what it tells behind a tab.
pub fn write(out: &mut Vec<u8>, alloc: Global, row: &str) -> Result<(), NoRow> {
    let (kind, told) = row.split_once("\t").ok_or(NoRow)?;
    if kind == "line" {
        return write_line(out, alloc, text_of(alloc, told)?.as_slice());
    }
    if kind == "break" {
        return Ok(push_break_answer(alloc, out, "b.py", break_answer(told)?)?);
    }
    if kind == "jump" {
        return Ok(push_answer(
            alloc,
            out,
            Answer::JumpFailed {
                reason: reason(told)?,
            },
        )?);
    }
    write_answer(out, alloc, kind, told)
}
