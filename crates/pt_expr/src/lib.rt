//! The reader of expressions: what the tokens of a text are by the wide grammar (Language
//! Reference 6).
#![tactic(auto)]

mod braces;
mod calls;
mod clauses;
mod displays;
mod front;
mod parameters;
mod reader;
mod sequels;
mod strings;

pub use front::{ParseErr, one_answer, wide};
pub use reader::Reader;
