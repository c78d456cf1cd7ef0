//! The blocks of a script and where the first Nexts of its comprehensions stand, put together, with those
//! of expressions and targets.

mod expressions;
mod outliner;
mod turn;

pub use expressions::{defaults, expression, place, target, targets};
pub use outliner::Outliner;
