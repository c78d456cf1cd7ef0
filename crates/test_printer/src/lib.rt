//! Trees of the language as lists in parentheses.
#![tactic(auto)]

mod expressions;
mod statements;

pub use expressions::expression;
pub use statements::script;
