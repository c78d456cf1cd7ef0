use crate::Happening;
use pt_base::{ActNo, BlockId, FrameNo, Line};

/// What happens where: the frame and its line, the block, the act that runs or the last one done,
/// and whether the frame is a generator's.
#[derive(Clone, Copy, Debug, PartialEq, Eq)]
pub struct Event {
    pub what: Happening,
    pub frame: FrameNo,
    pub block: BlockId,
    pub act: ActNo,
    pub line: Line,
    pub generator: bool,
}
