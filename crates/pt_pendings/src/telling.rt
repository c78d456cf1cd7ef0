use crate::Pending;
use pt_base::{Line, Seq};
use pt_happenings::{Event, Happening};

/// Why a jump is refused (Library Reference, `sys.settrace`, "frame.f_lineno").
#[derive(Clone, Copy)]
pub enum Reason {
    /// It isn't asked for at a line.
    NotAtLine,
    /// It isn't asked for the newest frame that is traced.
    NotNewest,
    /// No statement of the block starts on the line.
    NoStatement,
    /// A `finally` part would be entered or left.
    OutOfFinally,
    /// Another closed part would be entered.
    IntoBlock,
}

/// Who is still to be asked at an event. All stand in one order: the log, a debugger, the tools, the
/// trace function.
#[derive(Clone, Copy)]
pub enum Left {
    /// Those from a place in that order on.
    From(u32),
    /// A debugger, which is told where its jump has landed.
    Landing(Line),
    /// A debugger, which is told that its jump is refused, and then those from a place on.
    Refusal(Reason, u32),
}

/// An event that is told.
#[derive(Drop)]
pub struct Telling {
    pub event: Event,
    pub left: Left,
    /// What else is told there.
    pub behind: Seq<Happening>,
    pub pending: Pending,
}
