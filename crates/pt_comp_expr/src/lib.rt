//! Writes the code of expressions and targets (Language Reference 6, 7.2): from the tree straight into
//! the writer of a block, in linear time.
#![tactic(auto)]

mod code;
mod comprehensions;
mod expressions;
mod functions;
mod links;
mod operands;
mod strings;
mod targets;

pub use code::{expr_code, function_code, place_code, target_code};
pub use comprehensions::{clauses, turn};
pub use pt_write_leaves::Surroundings;
