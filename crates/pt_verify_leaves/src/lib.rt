//! Which Leaves each EndFinally of a block lets go on.
#![tactic(auto)]

mod gathering;
mod held;
mod holding;
mod lacks;
mod laws;
mod listing;

pub use held::{HeldLeaves, held_leaves};
pub use lacks::leaves_lack;
pub use laws::held_leaves_of_a_block;
