//! What a session of a debugger does by lines of commands, and at which events it stops, as far as no
//! run is asked (Library Reference, "pdb" and "bdb").
#![tactic(auto)]

mod breakpoints;
mod going;
mod session;

pub use session::{Outcome, Session};
