//! What the blocks of a script are for names, and where the first Nexts of its comprehensions stand.
#![tactic(auto)]

pub mod outline;
pub mod outliner;
