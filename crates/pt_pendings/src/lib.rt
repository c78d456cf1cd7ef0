//! What waits in an activation while events are told, and what a raise of a hook does in its place.
#![tactic(auto)]

mod laws;
mod pending;
mod reply;
mod telling;

pub use laws::raises_of_hooks_take_the_place_of_what_waits;
pub use pending::{Instead, Origin, Pending};
pub use reply::{Callee, End, Reply};
pub use telling::{Left, Reason, Telling};
