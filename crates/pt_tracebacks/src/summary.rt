//! What a traceback tells, apart from the heap and the source.

ghost use Rattle.std.specs.Prelude.{◌≡◌, ℕ, List};

use pt_base::{BlockId, Line, Seq, Text};

/// The names of the blocks of a run.
pub trait BlockNames {
    /// The name of a block, by its number.
    ghost name: { Self → ℕ → List ℕ };

    /// The name of a block, in constant time.
    fn name(&self, block: BlockId) -> &str
        ensures { result.now ≡ name self.now block.0 };
}

/// A frame that an exception came through (Library Reference, "traceback", `FrameSummary`).
#[derive(Debug, Drop)]
pub struct FrameSummary {
    /// The line on which it stood.
    pub line: Line,
    /// The name of its block.
    pub block: Text,
}

/// What an exception is to the one that it is reported before (Language Reference 7.8).
#[derive(Clone, Copy, Debug, PartialEq, Eq)]
pub enum Role {
    /// It left the script: none is reported behind it.
    Last,
    /// The other one was raised from it.
    Cause,
    /// The other one arose while it was handled.
    Context,
}

/// An exception of a chain that is reported (Library Reference, "traceback",
/// `TracebackException`).
#[derive(Debug, Drop)]
pub struct ExceptionSummary {
    /// The frames that it came through, the most recent call last.
    pub stack: Seq<FrameSummary>,
    pub class: Text,
    pub text: Text,
    pub role: Role,
}
