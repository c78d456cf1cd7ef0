//! The code of statements and of blocks in pieces.

mod laws;

pub use laws::{
    statements_start_one_behind_another, the_code_of_pieces_follows_its_block,
    the_piece_of_a_block_is_its_code, the_piece_of_a_statement_is_its_code,
    the_pieces_of_blocks_fit,
};
