//! What the machine of code does with what instructions come to, and at the ends of blocks.
#![tactic(auto)]

mod applying;
mod classes;
mod closing;
mod failing;
mod taking;

pub use applying::apply;
pub use closing::close;
pub use failing::raise_again;
pub use pt_transfers::{begin_act, block_of, go_to, is_told, leave_place};
