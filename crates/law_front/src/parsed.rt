//! Trees of the wide grammar as a text gives them: what holds of each name in one holds of each
//! name that the script mentions. Definitions and a law, without code.

mod laws;

pub use laws::mentions_are_parsed;
