use pt_base::Line;
use pt_heap::Value;
use pt_pendings::{Left, Reason};

/// A hook with a function of its own.
#[derive(Clone, Copy, Debug, PartialEq, Eq)]
pub enum Hook {
    /// A tool, by its id (Library Reference, `sys.monitoring`).
    Tool(u8),
    /// The trace function (Library Reference, `sys.settrace`).
    Tracer,
}

/// What a debugger is asked about.
#[derive(Clone, Copy)]
pub enum Question {
    /// The event that is told.
    Event,
    /// Where its jump has landed.
    Landing(Line),
    /// Why its jump is refused.
    Refusal(Reason),
}

/// Who is asked next, and who is still to be asked behind that.
#[derive(Clone, Copy)]
pub enum Next {
    Nobody,
    Consulted {
        question: Question,
        behind: Left,
    },
    /// A function is called with the event.
    Called {
        hook: Hook,
        function: Value,
        behind: Left,
    },
}

/// Who is asked next, and whether the event's lines are written for the log before.
#[derive(Clone, Copy)]
pub struct Asked {
    pub logs: bool,
    pub next: Next,
}
