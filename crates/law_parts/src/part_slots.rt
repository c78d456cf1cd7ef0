//! The slots of the closed parts of a block, and that its statements lie in their parts.

mod laws;

pub use laws::the_statements_of_a_block_lie_in_its_parts;
