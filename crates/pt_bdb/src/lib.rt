//! Breakpoints, and where a run stops by the last command (Library Reference, "bdb").
#![tactic(auto)]

mod breaks;
mod event;
mod judge;
mod laws;
mod row;
mod stops;
mod trial;

pub use breaks::{BreakErr, Breaks, LAST_NUMBER};
pub use event::{Event, EventKind};
pub use judge::{Judge, Verdict};
pub use laws::{breakpoints_have_their_turns, commands_stop_where_they_say};
pub use row::{BreakRow, Breakpoint, Hit};
pub use stops::{StopData, StopFrame, Stops, line_behind, until_line};
