//! What a block of code must not pass: the depth of its slots, Leaves that come to nothing, and cycles
//! on which no act begins.
#![tactic(auto)]

mod depth;
mod loops;
mod lost;

pub use depth::is_too_deep;
pub use loops::silent_loops;
pub use lost::lost_leave;
pub use pt_step_graph::Cycles;
