//! What instructions do that raise, and that try handlers (Language Reference 7.3, 7.8, 8.4.1).
#![tactic(auto)]

mod causes;
mod matching;
mod raising;
mod rows;

pub use rows::{assert_fail, matches, raise, raise_again, raise_from};
