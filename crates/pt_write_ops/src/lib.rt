//! Writes single operations of expressions: the instruction that does what an act asks, with its
//! operands.
#![tactic(auto)]

mod calls;
mod names;
mod operations;
mod role;
mod trees;

pub use calls::call;
pub use names::{load, push_cells, renew, store};
pub use operations::{
    attribute, constant, function, null, operand_count, plain, set_attribute, text,
};
pub use role::Role;
pub use trees::{formatting, roles, unpacking};
