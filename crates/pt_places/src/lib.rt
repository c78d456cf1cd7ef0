//! What stands at each place of a block and which handler rows cover it, found once.
#![tactic(auto)]

mod handlers;
mod innermost;
mod marks;
mod places;

pub use handlers::Handlers;
pub use places::{Place, Places};
