//! A block with a closed part of each kind, as a row.

mod laws;

pub use laws::closed_parts_of_a_block_are_closed;
