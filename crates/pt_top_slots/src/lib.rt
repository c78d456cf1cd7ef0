//! The classes of the topmost slots of places, as joins tell them.
#![tactic(auto)]

mod numbers;
mod tops;

pub use pt_joins::Joins;
pub use tops::{TopSlots, top_slots};
