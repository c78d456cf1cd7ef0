//! Writes the code of statements and of blocks (Language Reference 7, 8): from the tree straight into
//! the writer of a block.
#![tactic(auto)]

mod blocks;
mod choices;
mod code;
mod contexts;
mod docstrings;
mod generators;
mod loops;
mod places;
mod statements;
mod tries;

pub use code::{function_block, generator_block, lambda_block, statement_block};
