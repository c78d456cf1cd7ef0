//! Which always row takes a Leave from a place.
#![tactic(auto)]

mod chains;
mod sides;
mod stretches;
mod takers;

pub use sides::Side;
pub use takers::Takers;
