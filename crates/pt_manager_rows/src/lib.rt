//! What instructions do that enter context managers and leave them (Language Reference 8.5).
#![tactic(auto)]

mod entering;
mod leaving;

pub use entering::enter;
pub use leaving::exit;
