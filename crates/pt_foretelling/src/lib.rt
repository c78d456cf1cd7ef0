//! What is told before an act: that a call begins, with its first positional argument and whether a
//! builtin is called, and where a `break` or `continue` leads (Library Reference, `sys.monitoring`;
//! Language Reference 6.3.4, 7.9, 7.10).
#![tactic(auto)]

mod acts;
mod calls;
mod laws;

pub use acts::{Foretold, foretell};
pub use laws::acts_are_foretold_as_in_a_run;
