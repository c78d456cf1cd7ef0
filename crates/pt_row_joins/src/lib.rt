//! Which places handler rows join, on as many levels as slots that stay under them.
#![tactic(auto)]

mod rows;
mod sized;

pub use rows::{add, row_joins};
