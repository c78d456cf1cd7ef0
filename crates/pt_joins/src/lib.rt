//! Numbers that are joined in pairs, each pair on so many levels, and the classes of each level.
#![tactic(auto)]

mod joins;

pub use joins::{Join, Joins, joins_of};
