//! Turns of the machine of the whole run in which no instruction is done: a block ends, a raise goes
//! on that was held; and what goes on by the next turn (Language Reference 4.1, 7.6, 8.4).
#![tactic(auto)]

mod ends;
mod laws;
mod raises;

pub use ends::{begin_block, end_block, go_on};
pub use laws::{
    blocks_begin_and_end_as_in_a_run, code_is_a_machine_of_code, raises_go_on_as_in_a_run,
    what_waits_goes_on_as_in_a_run,
};
pub use pt_telling::{
    Base, BlockCode, Blocks, Called, CodeStanding, Course, Found, Hook, Machine, MachineEnd,
    Opener, Phase, Progress, Purpose, RECURSION_ERROR, RUNTIME_ERROR, Running, Standing,
    TYPE_ERROR, Turn, Waiting, Writes, allot, arise_while, ask, base_of, class_object, enter_told,
    error, error_saying, give_back, is_silent, is_told, land, leave_place, line, print, put_line,
    tell, trace_answered, trace_failed,
};
pub use raises::{below_top, land_raise, reraise};
