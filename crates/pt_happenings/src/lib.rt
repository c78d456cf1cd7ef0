//! What is told of a run: what happens, and where (Library Reference, `sys.monitoring`,
//! `sys.settrace`).
#![tactic(auto)]

mod event;
mod happening;

pub use event::Event;
pub use happening::Happening;
