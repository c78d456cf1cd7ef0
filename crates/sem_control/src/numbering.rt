//! The numbers that the nodes of a tree give to the blocks which they start. Definitions and a law,
//! without code.

mod laws;

pub use laws::numbers_are_those_of_blocks;
