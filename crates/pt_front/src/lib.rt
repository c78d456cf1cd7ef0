//! The front: from the text of a script to its tree and the scopes of its names, or why there are
//! none (Language Reference 2, 4.2, 6 to 8).
#![tactic(auto)]

mod front_end;
mod laws;
mod refusal;
mod syntax;

pub use front_end::front;
pub use laws::{a_text_has_one_answer, tokens_have_one_answer};
pub use refusal::Refusal;
pub use syntax::{SyntaxErr, parse_expr, parse_script};
