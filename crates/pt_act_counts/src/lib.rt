//! How many acts parts of a tree have in their block.
#![tactic(auto)]

mod count;
mod expressions;
mod statements;

pub use statements::handler_acts;
