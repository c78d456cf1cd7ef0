//! What a block gave that was called for something else than a value is used in the machine of the
//! whole run: it is an iterator or its next item, its truth decides, a context manager is entered, or
//! nothing is given (Language Reference 6.11, 8.1 to 8.3, 8.5).
#![tactic(auto)]

mod laws;
mod resuming;

pub use laws::results_are_used_as_in_a_run;
pub use resuming::resume;
