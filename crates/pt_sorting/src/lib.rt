//! Values in the order of keys (Library Reference, `sorted`; "Sorting Techniques").
#![tactic(auto)]

mod keys;
mod sorting;

pub use keys::{Kind, kind_of};
pub use sorting::sorted_content;
