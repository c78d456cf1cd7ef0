//! What a debugger is asked at.
use pt_base::{ActNo, BlockId, FrameNo, Line};

/// The kinds of events (Library Reference, `sys.settrace`).
#[derive(Clone, Copy, Debug, PartialEq, Eq)]
pub enum EventKind {
    Call,
    Line,
    Return,
    Exception,
}

/// What happens, and where: the frame with its line, the block, the act that runs or the last one
/// done, and whether the frame is a generator's.
#[derive(Clone, Copy, Debug, PartialEq, Eq)]
pub struct Event {
    pub kind: EventKind,
    pub frame: FrameNo,
    pub block: BlockId,
    pub act: ActNo,
    pub line: Line,
    pub generator: bool,
}
