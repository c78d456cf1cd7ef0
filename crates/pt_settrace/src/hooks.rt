ghost use Rattle.std.specs.Prelude.{◌≡◌, false, None, Some, is_none, OnOk, OnErr};
ghost use Rattle.std.specs.FinMap as map;
ghost use Rattle.sem_run.specs.run.Host as host;
ghost use Rattle.sem_run.specs.run.Hooks.{trace_behind, trace_unless};
ghost use Rattle.pt_settrace.specs.Tracing.{function_in, lines_in, or_none, unless_none};
ghost use Rattle.pt_settrace.specs.Tracing.{with_function, with_lines, due_in, kind_of};

use crate::frames::{self, FrameTracing, TracedFrames};
use indexmap::IndexMap;
use pt_base::{Dup, FrameNo, Memory};
use pt_events::{Event, EventKind};
use pt_heap::Value;
use std::alloc::Global;
use std::marker::Model;

/// The trace functions of a run: the global one, and those of frames. Contracts see what is kept of
/// frames as a map by their numbers.
#[derive(Drop)]
pub struct Hooks {
    global: Option<Value>,
    frames: TracedFrames,
    busy: bool,
}

impl Model for Hooks {
    ghost use Rattle.pt_heap.specs.contracts.value.Value as of_values;
    ghost use Rattle.pt_settrace.specs.contracts.frames.FrameTracing as of_frames;
    ghost use Rattle.pt_settrace.specs.Tracing.{Tracing, tracing_code};
    ghost use Rattle.pt_settrace.specs.Frames.{frames_of};

    ghost Value = { Tracing };

    ghost coded = { tracing_code of_values.the_row.coded of_frames.the_row.coded };

    ghost view = { λ h. record {
      global = h.global;
      frames = frames_of h.frames.entries;
      busy = h.busy;
    } };
}

/// Nothing for None (`sys.settrace(None)`, `f_trace = None`).
pub fn unless_none(f: Value) -> Option<Value>
    ensures { result ≡ unless_none f }
{
    match f {
        Value::None => None,
        f => Some(f),
    }
}

/// None for nothing.
pub fn or_none(f: Option<Value>) -> Value
    ensures { result ≡ or_none f }
{
    match f {
        Some(f) => f,
        None => Value::None,
    }
}

/// A frame's own function behind the answer to an event.
fn behind(kind: EventKind, answer: Option<Value>, function: Option<Value>) -> Option<Value>
    ensures { result ≡ trace_behind (Some (kind_of kind)) answer function }
{
    match kind {
        EventKind::Call => answer,
        EventKind::Return => function,
        EventKind::Line | EventKind::Exception => match answer {
            Some(answer) => Some(answer),
            None => function,
        },
    }
}

impl Hooks {
    /// No trace functions. It takes no memory until something is set in a frame.
    pub fn new(alloc: Global) -> Hooks
        ensures { result ≡ record { global = None; frames = map.empty; busy = false } }
    {
        Hooks {
            global: None,
            frames: IndexMap::new(alloc),
            busy: false,
        }
    }

    /// The global trace function, or None (`sys.gettrace`).
    pub fn global(&self) -> Value
        ensures { result ≡ or_none self.now.global }
    {
        or_none(self.global)
    }

    /// Sets the global trace function; None unsets it (`sys.settrace`).
    pub fn set_global(&mut self, f: Value)
        ensures { self.new ≡ record self.old { global = unless_none f } }
    {
        self.global = unless_none(f);
    }

    /// Whether there is no global trace function, so that none is due.
    pub fn quiet(&self) -> bool
        ensures { result ≡ is_none self.now.global }
    {
        self.global.is_none()
    }

    /// The trace function of a frame, or None (`f_trace`).
    pub fn local(&self, frame: FrameNo) -> Value
        ensures { result ≡ or_none (function_in frame.0 self.now) }
    {
        or_none(frames::tracing_of(&self.frames, frame.0).function)
    }

    /// Sets the trace function of a frame; None unsets it.
    pub fn set_local(&mut self, frame: FrameNo, f: Value) -> Result<(), Memory>
        ensures ok { OnOk result (self.new ≡ with_function frame.0 (unless_none f) self.old) }
        ensures err { OnErr result (self.new ≡ self.old) }
    {
        let tracing = FrameTracing {
            function: unless_none(f),
            lines: self.lines(frame),
        };
        frames::keep(&mut self.frames, frame.0, tracing)
    }

    /// Whether lines are traced in a frame (`f_trace_lines`).
    pub fn lines(&self, frame: FrameNo) -> bool
        ensures { result ≡ lines_in frame.0 self.now }
    {
        frames::tracing_of(&self.frames, frame.0).lines
    }

    /// Sets whether lines are traced in a frame.
    pub fn set_lines(&mut self, frame: FrameNo, on: bool) -> Result<(), Memory>
        ensures ok { OnOk result (self.new ≡ with_lines frame.0 on self.old) }
        ensures err { OnErr result (self.new ≡ self.old) }
    {
        let tracing = FrameTracing {
            function: frames::tracing_of(&self.frames, frame.0).function,
            lines: on,
        };
        frames::keep(&mut self.frames, frame.0, tracing)
    }

    /// Forgets what was set in a frame, as if it were new. It takes no memory.
    pub fn forget(&mut self, frame: FrameNo)
        ensures { self.new ≡ record self.old { frames = map.remove self.old.frames frame.0 } }
    {
        frames::forget(&mut self.frames, frame.0);
    }

    /// The trace function that is due at an event: at a call the global one, else that of the frame
    /// while there is a global one, and for lines if they are traced in the frame.
    pub fn due(&self, event: &Event) -> Option<Value>
        ensures { result ≡ due_in event.now.kind event.now.frame.0 self.now }
    {
        let global = self.global?;
        match event.kind {
            EventKind::Call => Some(global),
            EventKind::Line => {
                let tracing = frames::tracing_of(&self.frames, event.frame.0);
                if tracing.lines {
                    tracing.function
                } else {
                    None
                }
            }
            EventKind::Return | EventKind::Exception => {
                frames::tracing_of(&self.frames, event.frame.0).function
            }
        }
    }

    /// Takes what a trace function answered to an event. That to a call is the frame's trace
    /// function; another one replaces it unless it is None, but that to a return.
    pub fn answered(&mut self, event: &Event, answer: Value) -> Result<(), Memory>
        ensures ok { OnOk result (self.new ≡ with_function event.now.frame.0
            (trace_behind (Some (kind_of event.now.kind)) (unless_none answer)
            (function_in event.now.frame.0 self.old)) self.old) }
        ensures err { OnErr result (self.new ≡ self.old) }
    {
        let tracing = frames::tracing_of(&self.frames, event.frame.0);
        let tracing = FrameTracing {
            function: behind(event.kind, unless_none(answer), tracing.function),
            lines: tracing.lines,
        };
        frames::keep(&mut self.frames, event.frame.0, tracing)
    }

    /// Unsets the global trace function, since one has raised.
    pub fn failed(&mut self)
        ensures { self.new ≡ record self.old { global = trace_unless host.tracer self.old.global } }
    {
        self.global = None;
    }

    /// Whether a hook runs. No event is told then; who asks which function is due sees to that.
    pub fn busy(&self) -> bool
        ensures { result ≡ self.now.busy }
    {
        self.busy
    }

    /// Notes whether a hook runs.
    pub fn set_busy(&mut self, busy: bool)
        ensures { self.new ≡ record self.old { busy = busy } }
    {
        self.busy = busy;
    }
}

impl Dup for Hooks {
    fn dup(&self, _alloc: Global) -> Result<Hooks, Memory> {
        let frames = frames::copy_of(&self.frames)?;
        Ok(Hooks {
            global: self.global,
            frames,
            busy: self.busy,
        })
    }
}
