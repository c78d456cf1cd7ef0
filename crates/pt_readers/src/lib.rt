//! Readers of the parts of a grammar: what they say of the tokens, and how the proof of a reader
//! is made of those of the readers that it calls.
#![tactic(auto)]

mod halt;
pub mod sample;
mod tokens;

pub use halt::Halt;
pub use tokens::Tokens;
