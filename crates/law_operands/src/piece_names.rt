//! That the names of a script's blocks are found as the code of the blocks asks for them. Laws,
//! without code.

mod laws;

pub use laws::names_are_found_as_pieces_ask;
