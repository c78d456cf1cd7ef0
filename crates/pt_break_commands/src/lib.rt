//! What a debugger's commands on breakpoints do, and what they answer (Library Reference, "pdb":
//! `break`, `tbreak`, `clear`, `condition`, `ignore`, `enable`, `disable`).
#![tactic(auto)]

mod answers;
mod commands;

pub use commands::{clear, clear_all, condition, enable, ignore, set};
