//! Laws of the names of blocks: those that modules have, and the numbers of Nexts.
#![tactic(auto)]

pub mod module_names;
pub mod next_numbers;
