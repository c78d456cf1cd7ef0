//! The closed parts of a block that has a table of its slots.

mod laws;

pub use laws::slots_of_one_origin_are_a_closed_part;
