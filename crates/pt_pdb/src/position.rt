//! Where a run stands.
ghost use Rattle.std.specs.Prelude.{◌≡◌, ◌++◌, IfOk, OnOk, string_bytes};
ghost use Rattle.pt_pdb.specs.Positions.{frame_line, frames_text, heading, marker, numbered};
ghost use Rattle.pt_pdb.specs.Positions.{place_text, position_text, source_text, stop_text};

use pt_base::{Line, Memory, Seq};
use pt_heap::ViewFrame;
use std::alloc::{AllocError, Global};

/// What a run stops at.
#[derive(Clone, Copy, Debug, PartialEq, Eq)]
pub enum Stop<'a> {
    Line,
    Call,
    Return,
    /// The class and the text of the exception.
    Exception { error: &'a str },
    /// An exception has left the script.
    PostMortem,
}

/// The line of a number, from 1 on; the empty one where there is none.
fn shown(lines: &[Seq<u8>], number: Line) -> &[u8]
    ensures { result.now ≡ numbered lines.now number.0 }
{
    if number.0 == 0 {
        return &[];
    }
    match lines.get(number.0 as usize - 1) {
        Some(line) => line.as_slice(),
        None => &[],
    }
}

/// What stands before a frame: the chosen one is marked.
fn marker(is_chosen: bool) -> &'static str
    ensures { result.now ≡ marker is_chosen }
{
    if is_chosen { "> " } else { "  " }
}

/// The line of a frame: the file, the line and the name of its block.
fn frame_line(
    alloc: Global,
    is_chosen: bool,
    file: &str,
    frame: &ViewFrame,
) -> Result<String, AllocError>
    ensures { IfOk result (λ t. string_bytes t ≡ frame_line is_chosen file.now frame.now) }
{
    let marker = marker(is_chosen);
    let line = frame.line.0;
    let name = frame.name.as_str();
    format!(in alloc; "{marker}{file}({line}){name}()\n")
}

/// Writes a line of the source.
fn push_source(out: &mut Vec<u8>, line: &[u8]) -> Result<(), Memory>
    ensures { OnOk result (out.new.items ≡ out.old.items ++ source_text line.now) }
{
    out.extend_from_slice(b"-> ")?;
    out.extend_from_slice(line)?;
    out.extend_from_slice(b"\n")?;
    Ok(())
}

/// Writes where a frame stands, and the line of the source.
fn push_place(
    alloc: Global,
    out: &mut Vec<u8>,
    is_chosen: bool,
    file: &str,
    lines: &[Seq<u8>],
    frame: &ViewFrame,
) -> Result<(), Memory>
    ensures { OnOk result (out.new.items
        ≡ out.old.items ++ place_text file.now lines.now is_chosen frame.now) }
{
    let place = frame_line(alloc, is_chosen, file, frame)?;
    out.extend_from_slice(place.as_bytes())?;
    push_source(out, shown(lines, frame.line))
}

/// Writes the position of the chosen frame, over the name of the script's file and the lines of its
/// source without their outer blanks.
///
/// # Errors
///
/// `Memory` for want of it.
pub fn push_position(
    alloc: Global,
    out: &mut Vec<u8>,
    file: &str,
    lines: &[Seq<u8>],
    frame: &ViewFrame,
) -> Result<(), Memory>
    ensures { OnOk result (out.new.items
        ≡ out.old.items ++ position_text file.now lines.now frame.now) }
{
    push_place(alloc, out, true, file, lines, frame)
}

/// Writes frames, the oldest first, of which one is chosen: `where`.
///
/// # Errors
///
/// `Memory` for want of it.
pub fn push_frames(
    alloc: Global,
    out: &mut Vec<u8>,
    file: &str,
    lines: &[Seq<u8>],
    frames: &[ViewFrame],
    chosen: usize,
) -> Result<(), Memory>
    ensures { OnOk result (out.new.items
        ≡ out.old.items ++ frames_text file.now lines.now chosen 0 frames.now) }
{
    for (i, frame) in frames.iter().enumerate() {
        push_place(alloc, out, i == chosen, file, lines, frame)?;
    }
    Ok(())
}

/// What a stop begins with.
fn heading(alloc: Global, stop: Stop) -> Result<String, AllocError>
    ensures { IfOk result (λ t. string_bytes t ≡ heading stop.entry) }
{
    match stop {
        Stop::Line => Ok(String::new(alloc)),
        Stop::Call => String::from_str(alloc, "--Call--\n"),
        Stop::Return => String::from_str(alloc, "--Return--\n"),
        Stop::Exception { error } => format!(in alloc; "{error}\n"),
        Stop::PostMortem => String::from_str(alloc, "--Post-mortem--\n"),
    }
}

/// Writes a stop: what it is, and the position.
///
/// # Errors
///
/// `Memory` for want of it.
pub fn push_stop(
    alloc: Global,
    out: &mut Vec<u8>,
    stop: Stop,
    file: &str,
    lines: &[Seq<u8>],
    frame: &ViewFrame,
) -> Result<(), Memory>
    ensures { OnOk result (out.new.items
        ≡ out.old.items ++ stop_text file.now lines.now stop.entry frame.now) }
{
    let heading = heading(alloc, stop)?;
    out.extend_from_slice(heading.as_bytes())?;
    push_position(alloc, out, file, lines, frame)
}
