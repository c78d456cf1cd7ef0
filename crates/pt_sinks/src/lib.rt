//! Out and the log, two sinks that a run writes to.
#![tactic(auto)]

mod writing;

pub use writing::{Out, WriteErr, put};
