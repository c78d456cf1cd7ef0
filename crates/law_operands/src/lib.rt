//! Laws of the names that operands of code mean: those that a block has, and no others.
#![tactic(auto)]

pub mod free_names;
pub mod free_pieces;
pub mod piece_names;
