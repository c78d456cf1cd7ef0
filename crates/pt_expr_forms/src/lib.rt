//! What a writer has behind each form of expressions and targets, given what it has behind its parts
//! (Language Reference 6, 7.2), and the types that this mentions.
#![tactic(auto)]

mod comprehension;
mod display;
mod laws;
mod links;

pub use comprehension::{Begun, Built, Innermost};
pub use display::Display;
pub use laws::what_is_written_is_the_code_of_the_expression;
pub use links::LinkEnds;
