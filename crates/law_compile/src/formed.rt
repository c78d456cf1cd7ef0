//! Trees as the grammar forms them. Laws, without code.

mod laws;

pub use laws::{
    arguments_are_plain, blocks_of_a_script_are_formed, statements_of_a_block_have_their_parts,
};
