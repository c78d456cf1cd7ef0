//! What a writer has behind each form of statements, given what it has behind its parts
//! (Language Reference 7, 8), and the type that this mentions.
#![tactic(auto)]

mod contexts;

pub use contexts::OpenContext;
