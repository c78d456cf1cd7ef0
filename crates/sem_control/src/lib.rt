//! Control by the syntax, and the numbers of acts and blocks: which act of a script comes next, and
//! how each answer goes on.
#![tactic(auto)]

pub mod control;
pub mod numbering;
