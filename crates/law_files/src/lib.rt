//! Laws of scripts whose code is written to a file: that a code file can say it, and that operands and
//! counts fit.
#![tactic(auto)]

pub mod code_files;
pub mod operands_fit;
pub mod piece_counts;
