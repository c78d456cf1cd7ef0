//! Which kinds of slots the places of code get.
#![tactic(auto)]

mod common;
mod forest;
mod known;

pub use forest::Forest;
