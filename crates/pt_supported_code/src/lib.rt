//! Which code is supported yet, and the line of the first block that isn't.
#![tactic(auto)]

mod blocks;
mod built;
mod defaults;
mod names;

pub use built::unbuilt;
