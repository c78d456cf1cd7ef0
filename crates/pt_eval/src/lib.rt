//! What a debugger shows of an expression: its value in a frame, evaluated without calls
//! (Language Reference 6). No other code runs for it, and the objects that it makes are gone behind
//! it.
#![tactic(auto)]

mod answer;
mod evaluation;
mod names;
mod no_value;
mod operations;
mod purity;
mod scratch;
mod shown;

pub use answer::EvalAns;
pub use shown::eval;
