//! Turns of the machine of the whole run in which no instruction is done: who is asked at an event, what
//! goes on behind it, a block that ends, the end of the run; and what is left where an instruction is
//! next (Language Reference 4.1, 8.4; Library Reference, `bdb`).
#![tactic(auto)]

mod laws;
mod lines;
mod onward;
mod raise;
mod turns;

pub use laws::turns_without_instructions_are_those_of_a_run;
pub use lines::{leave_profile, visible_line};
pub use onward::{Advanced, end_block_and_proceed, proceed, tell_and_proceed};
pub use pt_closing::{
    BlockCode, Blocks, Machine, MachineEnd, Phase, Standing, Turn, Waiting, Writes, begin_act,
};
pub use turns::advance;
