//! Who is asked next at an event that is told (Library Reference, `sys.settrace`,
//! `sys.monitoring`).
#![tactic(auto)]

mod asked;
mod asking;
mod due;
mod kinds;
mod laws;

pub use asked::{Asked, Hook, Next, Question};
pub use asking::ask_next;
pub use laws::those_are_asked_that_a_run_asks;
