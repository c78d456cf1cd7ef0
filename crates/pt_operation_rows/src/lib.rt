//! What instructions of operations on values do that may ask methods of a script's classes: operators,
//! comparisons, tests, items, displays, fields and arguments that are spread (Language Reference
//! 2.4.3, 3.3, 6.2.5 to 6.2.7, 6.3.2 to 6.13, 6.15, 7.2.1, 8.1).
#![tactic(auto)]

mod branches;
mod displays;
mod items;
mod operators;
mod special;

pub use branches::{jump_if, jump_if_keep, jump_unless, jump_unless_keep};
pub use displays::{dict, format, join, list, set, slice, spread, spread_named, tuple};
pub use items::item;
pub use operators::{binary, compare, in_place, not, unary};
pub use pt_call_rows::{call, call_with_names, call_with_roles, make_class, make_function};
