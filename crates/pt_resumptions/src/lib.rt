//! What comes of having a generator go on, by its state.
#![tactic(auto)]

mod laws;
mod resumption;

pub use laws::generators_go_on_by_their_state;
pub use resumption::{Obstacle, Resumption, resumption_of};
