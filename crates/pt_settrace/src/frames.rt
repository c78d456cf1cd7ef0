//! What is kept of tracing in frames, by their numbers.
ghost use Rattle.std.specs.Prelude.{◌≡◌, nat_eq, unwrap_or, OnOk, OnErr, IfOk};
ghost use Rattle.std.specs.FinMap as map;
ghost use Rattle.indexmap.specs.IndexMap.{get};
ghost use Rattle.pt_settrace.specs.Frames.{frames_of, untraced};

use indexmap::IndexMap;
use pt_base::Memory;
use pt_heap::Value;

/// What is kept of tracing in a frame: its local trace function (`f_trace`), and whether its lines
/// are traced (`f_trace_lines`).
#[derive(Clone, Copy, Debug, PartialEq, Eq)]
pub struct FrameTracing {
    pub function: Option<Value>,
    pub lines: bool,
}

/// That of each frame in which something was set, by the frame's number.
pub type TracedFrames = IndexMap<u64, FrameTracing>;

/// What is kept of a frame; a new one has no function of its own, and its lines are traced.
pub fn tracing_of(frames: &TracedFrames, frame: u64) -> FrameTracing
    ensures { result ≡ unwrap_or (map.get (frames_of frames.now.entries) frame) untraced }
{
    match frames.get(&frame) {
        Some(tracing) => *tracing,
        None => FrameTracing {
            function: None,
            lines: true,
        },
    }
}

/// Keeps something of a frame.
pub fn keep(frames: &mut TracedFrames, frame: u64, tracing: FrameTracing) -> Result<(), Memory>
    ensures ok { OnOk result (frames_of frames.new.entries
        ≡ map.insert (frames_of frames.old.entries) frame tracing) }
    ensures err { OnErr result (frames.new.entries ≡ frames.old.entries) }
{
    frames.insert(frame, tracing)?;
    Ok(())
}

/// Keeps nothing of a frame any more.
pub fn forget(frames: &mut TracedFrames, frame: u64)
    ensures { frames_of frames.new.entries ≡ map.remove (frames_of frames.old.entries) frame }
{
    frames.swap_remove(&frame);
}

/// A copy of what is kept.
pub fn copy_of(frames: &TracedFrames) -> Result<TracedFrames, Memory>
    ensures { IfOk result (λ copy. copy.entries ≡ frames.now.entries) }
{
    Ok(frames.clone()?)
}
