//! A file of commands.
ghost use Rattle.std.specs.Prelude.{◌≡◌, ◌==◌, ◌<◌, IfOk, MatchOption, length};
ghost use Rattle.std.specs.List.{position_or_len};
ghost use Rattle.std.specs.Str.Lines.{strip_carriage_return};
ghost use Rattle.pt_command_files.specs.CommandFile.{command_lines};

use pt_base::{Memory, Seq};
use std::alloc::Global;

/// Where the first line feed stands.
fn first_feed(bytes: &[u8]) -> Option<usize>
    ensures { MatchOption result (position_or_len (λ b. b == 10) bytes.now ≡ length bytes.now)
        (λ at. (at ≡ position_or_len (λ b. b == 10) bytes.now) × (at < length bytes.now)) }
{
    for (i, byte) in bytes.iter().enumerate() {
        if *byte == b'\n' {
            return Some(i);
        }
    }
    None
}

/// A line without one carriage return at its end.
fn without_return(line: &[u8]) -> &[u8]
    ensures { result.now ≡ strip_carriage_return line.now }
{
    match line {
        [before @ .., b'\r'] => before,
        _ => line,
    }
}

/// The lines of a file of commands: each ends with a line feed, and a carriage return before it goes
/// with it. Behind the last line feed there is a line where something stands there. It takes time and
/// memory linear in the file.
///
/// # Errors
///
/// `Memory` for want of it.
#[tactic(auto, using(crate::proofs::FileLemmas::file_lines))]
pub fn command_lines(alloc: Global, file: &[u8]) -> Result<Seq<Seq<u8>>, Memory>
    ensures { IfOk result (λ lines. lines ≡ command_lines file.now) }
{
    let mut lines = Seq::new(alloc);
    let mut rest = file;
    while let Some(at) = first_feed(rest) {
        lines.push(Seq::from_slice(alloc, without_return(&rest[..at]))?)?;
        rest = &rest[at + 1..];
    }
    if rest.is_empty() {
        return Ok(lines);
    }
    lines.push(Seq::from_slice(alloc, rest)?)?;
    Ok(lines)
}
