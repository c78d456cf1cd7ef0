//! That the code of each block goes ahead wherever no act begins, but for jumps back to where an
//! act is near. Laws, without code.

mod laws;

pub use laws::{code_of_forward_pieces_goes_ahead, pieces_of_blocks_go_forward};
