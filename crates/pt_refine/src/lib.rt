//! From a script of the wide grammar to a script of the language, or what the language leaves out
//! (Language Reference 7, 8).
#![tactic(auto)]

mod block_trees;
mod kept;
mod scripts;
mod statement_nodes;
mod statement_trees;

pub use scripts::narrow;
