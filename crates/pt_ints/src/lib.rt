//! Integer operators with Python's results (Language Reference 6.5 to 6.9). A result that is out
//! of the range of 128 bits is told, and never wraps.
#![tactic(auto)]

mod answer;
mod bits;
mod division;
mod exact;
mod operate;
mod power;
mod shift;

pub use answer::IntAns;
pub use operate::{binary, unary};
