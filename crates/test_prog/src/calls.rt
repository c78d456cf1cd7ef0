//! The call of a row, and what it comes to.

use crate::rows::{NoRow, Row, read_row};
use pt_base::{MemShelf, MemSink, Seq, Text};
use pt_prog::{End, status, top};
use std::alloc::{AllocError, Global};

/// A shelf that holds the text under the name a.py alone.
fn shelf(alloc: Global, text: &[u8], fails: Seq<u64>) -> Result<MemShelf, NoRow> {
    let mut files = Seq::new(alloc);
    let name = Text::from_str(alloc, "a.py")?;
    let bytes = Seq::from_slice(alloc, text)?;
    files.push((name, bytes))?;
    Ok(MemShelf::new(files, fails))
}

fn tell(line: &mut String, end: &End) -> Result<(), AllocError> {
    match end {
        End::Done => line.push_str("done"),
        End::Exited { code } => write!(line, "exited {code}"),
        End::Raised => line.push_str("raised"),
        End::Spent { acts } => write!(line, "spent {acts}"),
        End::Outside { what, line: at } => write!(line, "outside {what} {}", at.0),
        End::Usage => line.push_str("usage"),
        End::Refused { error } => write!(line, "refused {} {}", error.number(), error.place()),
        End::BadCode { error } => write!(line, "bad code {} {}", error.number(), error.place()),
        End::TooLong { which } => write!(line, "too long {which:?}"),
        End::ReadFault => line.push_str("read fault"),
        End::WriteFault { which } => write!(line, "write fault {which:?}"),
        End::Memory => line.push_str("memory"),
        End::Unbuilt { line: at } => write!(line, "unbuilt {}", at.0),
    }
}

/// Writes the exit status and the end of a row's call, and the pieces that it has written.
pub fn answer(line: &mut String, alloc: Global, text: &str) -> Result<(), NoRow> {
    let Row {
        words,
        text: script,
        read_fails,
        write_fails,
        log_fails,
    } = read_row(alloc, text)?;
    let mut shelf = shelf(alloc, script.as_slice(), read_fails)?;
    let mut out = MemSink::new(alloc, write_fails);
    let mut log = MemSink::new(alloc, log_fails);
    let end = top(alloc, words.as_slice(), &mut shelf, &mut out, &mut log);
    write!(line, "{} ", status(&end))?;
    tell(line, &end)?;
    for piece in out.pieces() {
        write!(line, " | {}", piece.as_slice().escape_ascii())?;
    }
    for piece in log.pieces() {
        write!(line, " | log {}", piece.as_slice().escape_ascii())?;
    }
    Ok(())
}
