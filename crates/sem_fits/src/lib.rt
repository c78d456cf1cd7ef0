//! Which code fits, and where jumps land in the code of blocks.
#![tactic(auto)]

pub mod comp_jumps;
pub mod fits;
pub mod jump_rows;
