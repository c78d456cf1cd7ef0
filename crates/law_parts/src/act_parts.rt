//! The acts of a block lie in their parts.

mod laws;

pub use laws::the_acts_of_a_block_lie_in_their_parts;
