//! What an instruction of a block counts has instructions of its own in the block's piece.
//! Definitions and a law, without code.

mod laws;

pub use laws::what_is_counted_has_code;
