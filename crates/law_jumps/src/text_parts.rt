//! The statements of a text that is a script lie in their closed parts. A law, without code.

mod laws;

pub use laws::the_statements_of_a_text_lie_in_their_parts;
