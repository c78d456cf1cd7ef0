//! What the log gets of an exception that leaves a script: its traceback, with those of the
//! exceptions that are its cause or context (Library Reference, "traceback").
#![tactic(auto)]

mod chain;
mod lines;
mod summary;
mod text;
mod traceback;

pub use summary::{BlockNames, ExceptionSummary, FrameSummary, Role};
pub use text::traceback_text;
pub use traceback::summaries;
