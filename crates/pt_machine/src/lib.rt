//! The machine of code does strides: it begins an act, does what its instruction does, and goes on
//! where that leads; at the end of a block it closes it.
#![tactic(auto)]

mod attributes;
mod bodies;
mod calls;
mod cells;
mod containers;
mod fast;
mod fast_strides;
mod globals;
mod imports;
mod instructions;
mod locals;
mod managers;
mod moves;
mod operations;
mod raises;
mod strides;

pub use fast_strides::fast_stride;
pub use pt_code_tables::CodeTables;
pub use strides::stride;
