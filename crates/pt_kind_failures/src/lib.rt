//! How a block fails by the kinds of its slots.
#![tactic(auto)]

mod failures;
mod finding;
mod lacking;

pub use failures::{kind_failures, least_cut};
