//! The grammar of expressions: tokens as it sees them, its productions, and the nodes that are made
//! of what is read (Language Reference 6).
#![tactic(auto)]

pub mod brace_nodes;
pub mod call_nodes;
pub mod clause_nodes;
pub mod comprehension_nodes;
pub mod deep;
pub mod display_nodes;
mod ends;
mod joining;
mod lexemes;
pub mod nodes;
pub mod operators;
pub mod parameter_nodes;
mod part;
mod piece;
pub mod pieces;
mod sign;

pub use lexemes::Lexemes;
pub use part::Part;
pub use piece::Piece;
pub use sign::{Keyword, Layout, Mark, SIGNS, Sign, Singleton, Word};
