//! The events of a run of which trace functions and debuggers are told (Library Reference,
//! sys.settrace).
#![tactic(auto)]

use pt_base::{ActNo, BlockId, FrameNo, Line};

/// The four kinds of events of sys.settrace.
#[derive(Clone, Copy, Debug, PartialEq, Eq)]
pub enum EventKind {
    /// A block starts, or a generator goes on.
    Call,
    /// A line begins.
    Line,
    /// A block returns, a generator gives a value on, or an exception leaves a block.
    Return,
    /// An exception arises or arrives.
    Exception,
}

/// What happens where: the frame and its line, the block, the act that runs or the last one done,
/// and whether the frame is a generator's.
#[derive(Clone, Copy, Debug, PartialEq, Eq)]
pub struct Event {
    pub kind: EventKind,
    pub frame: FrameNo,
    pub block: BlockId,
    pub act: ActNo,
    pub line: Line,
    pub generator: bool,
}
