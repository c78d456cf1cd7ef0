//! The notation of bytes in a table: words of hex digits; one with `*N` behind it stands N times.

use pt_base::Memory;
use std::alloc::{AllocError, AllocFailed, Global};

/// The line is no row, or memory ran out.
#[derive(Clone, Copy, Debug)]
pub struct NoRow;

impl From<Memory> for NoRow {
    fn from(_: Memory) -> Self {
        NoRow
    }
}

impl From<AllocError> for NoRow {
    fn from(_: AllocError) -> Self {
        NoRow
    }
}

impl<T: Drop> From<AllocFailed<T>> for NoRow {
    fn from(_: AllocFailed<T>) -> Self {
        NoRow
    }
}

/// Adds the bytes of a word.
pub fn push_word(bytes: &mut Vec<u8>, alloc: Global, word: &str) -> Result<(), NoRow> {
    let (digits, times) = word.split_once("*").unwrap_or((word, "1"));
    let piece = hex::decode(alloc, digits).map_err(|_| NoRow)?;
    for _ in 0..number(times)? {
        bytes.extend_from_slice(piece.as_slice())?;
    }
    Ok(())
}

/// The bytes of words.
pub fn bytes_of(alloc: Global, words: &str) -> Result<Vec<u8>, NoRow> {
    let mut bytes = Vec::new(alloc);
    for word in words.split_whitespace() {
        push_word(&mut bytes, alloc, word)?;
    }
    Ok(bytes)
}

pub fn number(word: &str) -> Result<usize, NoRow> {
    word.parse::<usize>().map_err(|_| NoRow)
}
