//! What instructions of iterators and of unpacking do, and those that change containers, which may
//! ask methods of a script's classes (Language Reference 3.3.7, 6.2.4, 7.2, 7.5, 8.3).
#![tactic(auto)]

mod changes;
mod iterators;
mod taking;
mod unpacking;

pub use changes::{add_to_dict, add_to_list, add_to_set, delete_item, set_item};
pub use iterators::{iter, next};
pub use unpacking::{unpack, unpack_star};
