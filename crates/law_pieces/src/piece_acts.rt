//! How many acts a block has, as its marks tell it. Laws, without code.

mod laws;

pub use laws::marks_tell_how_many_acts_a_block_has;
