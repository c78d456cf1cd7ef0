//! The tokens of a text stand on lines that rise. A law, without code.

mod laws;

pub use laws::lines_of_tokens_rise;
