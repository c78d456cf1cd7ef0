//! The list of breakpoints that a debugger writes (Library Reference, "pdb": `break` without an
//! argument), in the words of CPython's bdb.
#![tactic(auto)]

mod breakpoint_list;

pub use breakpoint_list::push_breakpoints;
