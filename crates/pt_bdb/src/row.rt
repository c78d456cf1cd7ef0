//! A breakpoint.
use pt_base::{Line, Text};

/// What is known of a breakpoint (Library Reference, "bdb": `Breakpoint`).
#[derive(Debug, Drop)]
pub struct BreakRow {
    pub line: Line,
    /// It is deleted where it stops.
    pub temporary: bool,
    pub enabled: bool,
    pub condition: Option<Text>,
    /// How many crossings are to be ignored.
    pub ignore: u64,
    /// How often it was tried. It stands still at the greatest `u64`.
    pub hits: u64,
}

/// A breakpoint with its number.
#[derive(Debug, Drop)]
pub struct Breakpoint {
    pub number: u32,
    pub row: BreakRow,
}

/// A breakpoint stops: its number, and whether it was deleted.
#[derive(Clone, Copy, Debug, PartialEq, Eq)]
pub struct Hit {
    pub number: u32,
    pub removed: bool,
}
