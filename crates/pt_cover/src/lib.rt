//! Reports on a run, counted from the events that it writes to its log: how often each line was
//! begun (Library Reference, "trace"), and the calls and lines of each name (Library Reference, "The
//! Python Profilers").
#![tactic(auto)]

mod count_log;
mod counts;
mod given;
mod kind;
mod line_counts;
mod name_counts;
mod open_calls;
mod passing;
mod pieces;
mod report;
mod reporter;
mod rows;
mod told;

pub use count_log::CountLog;
pub use kind::ReportKind;
pub use pieces::begins_line;
pub use reporter::Reporter;
