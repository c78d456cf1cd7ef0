//! How many slots the places of a block get up to a place, where none gets two numbers, though
//! slots are too few or a handler row is too deep.
#![tactic(auto)]

mod spread;
mod ways;

pub use spread::single_sizes;
