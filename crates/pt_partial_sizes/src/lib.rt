//! How many slots places get through the instructions below a limit.
#![tactic(auto)]

mod cut;

pub use cut::sizes_below;
