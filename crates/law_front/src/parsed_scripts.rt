//! What tokens are, by the wide grammar, has names that the tokens have, and the parts that the
//! grammar asks. A law, without code.

mod laws;

pub use laws::scripts_are_parsed;
