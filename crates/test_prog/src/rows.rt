//! The rows of a table, as `run a.py, read 1, write 2, log 3: TEXT`: the words of the call, the
//! numbers of the calls that fail, and the text of the file a.py.

use crate::notation::bytes_of;
use pt_base::{Memory, Seq};
use std::alloc::{AllocError, AllocFailed, Global};

/// The line is no row, or memory ran out.
#[derive(Clone, Copy, Debug)]
pub struct NoRow;

impl From<Memory> for NoRow {
    fn from(_: Memory) -> Self {
        NoRow
    }
}

impl From<AllocError> for NoRow {
    fn from(_: AllocError) -> Self {
        NoRow
    }
}

impl<T: Drop> From<AllocFailed<T>> for NoRow {
    fn from(_: AllocFailed<T>) -> Self {
        NoRow
    }
}

/// A call of the program.
#[derive(Drop)]
pub struct Row {
    pub words: Vec<String>,
    /// The numbers of the calls of the shelf that fail, from 1.
    pub read_fails: Seq<u64>,
    /// The numbers of the calls of out that fail, from 1.
    pub write_fails: Seq<u64>,
    /// The numbers of the calls of the log that fail, from 1.
    pub log_fails: Seq<u64>,
    pub text: Vec<u8>,
}

/// The words of a call; `''` is the empty one.
fn words(alloc: Global, line: &str) -> Result<Vec<String>, NoRow> {
    let mut words = Vec::new(alloc);
    for word in line.split_whitespace() {
        let word = if word == "''" { "" } else { word };
        words.push(String::from_str(alloc, word)?)?;
    }
    Ok(words)
}

/// The numbers of the calls that fail: those that stand behind this word.
fn fails(alloc: Global, head: &str, word: &str) -> Result<Seq<u64>, NoRow> {
    let mut numbers = Seq::new(alloc);
    for part in head.split(',').skip(1) {
        let (call, number) = part.trim().split_once(" ").ok_or(NoRow)?;
        if call == word {
            numbers.push(number.parse::<u64>().map_err(|_| NoRow)?)?;
        }
    }
    Ok(numbers)
}

/// The call that a line tells.
pub fn read_row(alloc: Global, line: &str) -> Result<Row, NoRow> {
    let (head, text) = line.split_once(":").ok_or(NoRow)?;
    Ok(Row {
        words: words(alloc, head.split(',').next().unwrap_or_default())?,
        read_fails: fails(alloc, head, "read")?,
        write_fails: fails(alloc, head, "write")?,
        log_fails: fails(alloc, head, "log")?,
        text: bytes_of(alloc, text.strip_prefix(" ").unwrap_or(text))?,
    })
}
