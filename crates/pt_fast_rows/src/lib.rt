//! Fast paths of the rows of common instructions: on values that are there, on integers and on truth
//! values. Where one isn't taken, nothing changes, and the row is done in full.
#![tactic(auto)]

mod branches;
mod cells;
mod integers;
mod names;
mod taking;
mod values;

pub use branches::{fast_jump_if, fast_jump_unless};
pub use cells::{fast_cell, fast_set_cell};
pub use integers::{fast_binary, fast_compare, fast_in_place};
pub use names::{fast_global, fast_local, fast_set_global, fast_set_local};
pub use values::{fast_constant, fast_pop, fast_return};
