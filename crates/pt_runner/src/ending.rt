use pt_base::{Line, Seq, Text, What};
use pt_tracebacks::ExceptionSummary;

/// How a run ends that is not broken off.
#[derive(Debug, Drop)]
pub enum RunEnd {
    /// The module came to its end.
    Done,
    /// A SystemExit left the module, with this text for the log, if it has one.
    Exited { status: u8, text: Option<Text> },
    /// Another exception left the module: it stands last, behind those that are reported with it.
    Raised { exceptions: Seq<ExceptionSummary> },
    /// All units are taken, and another act would begin.
    Spent,
    /// The run left the profile of the language, where this line stands in the newest frame.
    Outside { what: What, line: Line },
}

/// What a run took.
#[derive(Clone, Copy, Debug, PartialEq, Eq)]
pub struct Totals {
    /// The units, one for each act.
    pub acts: u64,
    /// The instructions that were performed. The count stands still at the greatest u64.
    pub instructions: u64,
    /// The most slots that one activation held where an instruction was next.
    pub depth: u64,
}

/// How a run ended, and what it took.
#[derive(Debug, Drop)]
pub struct Ended {
    pub end: RunEnd,
    pub totals: Totals,
}
