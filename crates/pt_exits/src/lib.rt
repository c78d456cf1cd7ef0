//! Ways out of statements: which of them leave a loop, which go on behind, and which need a
//! place of their own.
#![tactic(auto)]

mod behind;
mod exits;
mod fall_through;
mod places;

pub use behind::{
    Behind, behind_branches, behind_loop, behind_tried, in_front, is_needed, needed_if,
};
pub use exits::some_exits;
pub use fall_through::{some_branch_goes_on, some_handler_goes_on};
pub use places::{is_silent, leaves};
