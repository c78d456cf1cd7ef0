//! The pieces of blocks are typed, and the walk over them gives tables of their slots.

mod laws;

pub use laws::{the_pieces_of_blocks_are_typed, the_walk_over_a_block_gives_a_table};
