//! Trace functions: the global one, and those of frames (Library Reference, sys.settrace).
#![tactic(auto)]

mod frames;
mod hooks;
mod laws;

pub use hooks::{Hooks, or_none, unless_none};
pub use laws::{
    a_frame_keeps_what_it_was_given, the_due_function_is_that_of_a_run,
    who_is_asked_follows_the_rules,
};
