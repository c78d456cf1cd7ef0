//! The text of a traceback.

ghost use Rattle.std.specs.Prelude.{◌≡◌, ◌++◌, IfOk, OnOk, map, string_bytes};
ghost use Rattle.std.specs.Option.{option_map};
ghost use Rattle.pt_tracebacks.specs.Lines.{source_lines};
ghost use Rattle.pt_tracebacks.specs.Texts.{exception_line, exception_text, frame_place};
ghost use Rattle.pt_tracebacks.specs.Texts.{frame_text, heading};
ghost use Rattle.pt_tracebacks.specs.Texts.{quoted, stack_text, traceback_text, transition};

use crate::lines::{shown, source_lines};
use crate::{ExceptionSummary, FrameSummary, Role};
use pt_base::Memory;
use std::alloc::{AllocError, Global};

/// Writes a line of the source, if it has one.
fn push_quoted(bytes: &mut Vec<u8>, line: &[u8]) -> Result<(), Memory>
    ensures { OnOk result (bytes.new.items ≡ bytes.old.items ++ quoted line.now) }
{
    if line.is_empty() {
        return Ok(());
    }
    bytes.extend_from_slice(b"    ")?;
    bytes.extend_from_slice(line)?;
    bytes.extend_from_slice(b"\n")?;
    Ok(())
}

/// Where a frame stood.
fn frame_place(alloc: Global, file: &str, frame: &FrameSummary) -> Result<String, AllocError>
    ensures { IfOk result (λ text. string_bytes text ≡ frame_place file.now frame.now) }
{
    let number = frame.line.0;
    let block = frame.block.as_str();
    format!(in alloc; "  File \"{file}\", line {number}, in {block}\n")
}

/// Writes a frame, and the line on which it stood.
fn push_frame(
    alloc: Global,
    bytes: &mut Vec<u8>,
    file: &str,
    lines: &[&[u8]],
    frame: &FrameSummary,
) -> Result<(), Memory>
    ensures { OnOk result (bytes.new.items ≡ bytes.old.items
        ++ frame_text file.now (map (λ l. l.now) lines.now) frame.now) }
{
    let place = frame_place(alloc, file, frame)?;
    bytes.extend_from_slice(place.as_bytes())?;
    push_quoted(bytes, shown(lines, frame.line))
}

/// Writes the frames of a stack.
fn push_stack(
    alloc: Global,
    bytes: &mut Vec<u8>,
    file: &str,
    lines: &[&[u8]],
    stack: &[FrameSummary],
) -> Result<(), Memory>
    ensures { OnOk result (bytes.new.items ≡ bytes.old.items
        ++ stack_text file.now (map (λ l. l.now) lines.now) stack.now) }
{
    for frame in stack {
        push_frame(alloc, bytes, file, lines, frame)?;
    }
    Ok(())
}

fn heading(stack: &[FrameSummary]) -> &'static str
    ensures { result.now ≡ heading stack.now }
{
    if stack.is_empty() {
        ""
    } else {
        "Traceback (most recent call last):\n"
    }
}

fn transition(role: Role) -> &'static str
    ensures { result.now ≡ transition role }
{
    match role {
        Role::Last => "",
        Role::Cause => {
            "\nThe above exception was the direct cause of the following exception:\n\n"
        }
        Role::Context => {
            "\nDuring handling of the above exception, another exception occurred:\n\n"
        }
    }
}

/// Writes an exception by its class, and by its text where that isn't empty.
fn push_exception_line(bytes: &mut Vec<u8>, class: &str, text: &str) -> Result<(), Memory>
    ensures { OnOk result (bytes.new.items ≡ bytes.old.items
        ++ exception_line class.now text.now) }
{
    bytes.extend_from_slice(class.as_bytes())?;
    if !text.is_empty() {
        bytes.extend_from_slice(b": ")?;
        bytes.extend_from_slice(text.as_bytes())?;
    }
    bytes.extend_from_slice(b"\n")?;
    Ok(())
}

/// Writes an exception of a chain, with what is said between it and the next one.
fn push_exception(
    alloc: Global,
    bytes: &mut Vec<u8>,
    file: &str,
    lines: &[&[u8]],
    exception: &ExceptionSummary,
) -> Result<(), Memory>
    ensures { OnOk result (bytes.new.items ≡ bytes.old.items
        ++ exception_text file.now (map (λ l. l.now) lines.now) exception.now) }
{
    let stack = exception.stack.as_slice();
    bytes.extend_from_slice(heading(stack).as_bytes())?;
    push_stack(alloc, bytes, file, lines, stack)?;
    push_exception_line(bytes, exception.class.as_str(), exception.text.as_str())?;
    bytes.extend_from_slice(transition(exception.role).as_bytes())?;
    Ok(())
}

/// The text of a traceback over the name of the file and its source, if there is one, in time
/// linear in the source and in the text.
///
/// # Errors
///
/// `Memory` for want of it.
pub fn traceback_text(
    alloc: Global,
    file: &str,
    source: Option<&[u8]>,
    exceptions: &[ExceptionSummary],
) -> Result<Vec<u8>, Memory>
    ensures { IfOk result (λ bytes. bytes.items ≡ traceback_text file.now
        (source_lines (option_map (λ s. s.now) source.entry)) exceptions.now) }
{
    let lines = source_lines(alloc, source)?;
    let mut bytes = Vec::new(alloc);
    for exception in exceptions {
        push_exception(alloc, &mut bytes, file, lines.as_slice(), exception)?;
    }
    Ok(bytes)
}
