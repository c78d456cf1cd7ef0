//! The code of a script in pieces: of expressions, of statements, of blocks and of the whole.
#![tactic(auto)]

pub mod compile;
pub mod emitter;
pub mod stm_pieces;
