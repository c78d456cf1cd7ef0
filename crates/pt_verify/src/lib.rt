//! The verifier of code: whether all of its blocks fit, or why the first is refused that doesn't.
#![tactic(auto)]

mod block;
mod code;
mod cuts;
mod error;
mod laws;
mod leaves;
mod probe;

pub use code::{Verified, verify};
pub use error::VerifyErr;
pub use laws::code_that_fits_is_verified;
