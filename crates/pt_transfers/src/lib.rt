//! Control transfers of the machine of code: jumps, landings, raises, calls and their ends, and what
//! is told of them (Language Reference 4.1, 4.3, 7.6 to 7.10, 8.4).
#![tactic(auto)]

mod acts;
mod blocks;
mod calls;
mod events;
mod landings;
mod lines;
mod raises;
mod writing;

pub use acts::{begin_act, is_told};
pub use blocks::block_of;
pub use calls::{give_back, open, resume};
pub use events::{tell, tell_exception};
pub use landings::{go_to, land, leave_place};
pub use lines::{line, visible_line};
pub use pt_machine_state::{
    BlockCode, Blocks, Machine, MachineEnd, Standing, Stride, Write, Writes,
};
pub use raises::{active, raise};
pub use writing::{event, print};
