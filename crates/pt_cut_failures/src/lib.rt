//! Under which handler row of a block cuts differ, where a row is too deep or slots are too few.
#![tactic(auto)]

mod chains;
mod failures;
mod graph;

pub use failures::first_differing;
