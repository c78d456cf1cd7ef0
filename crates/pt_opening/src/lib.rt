//! A block opens in the machine of the whole run, above the newest activation (Language Reference
//! 4.1, 6.3.4).
#![tactic(auto)]

mod laws;
mod opening;

pub use laws::blocks_open_as_in_a_run;
pub use opening::{Wanted, open};
pub use pt_hearing::{
    Base, BlockCode, Blocks, Called, CodeStanding, Course, Found, Hook, Machine, MachineEnd,
    Opener, Phase, Progress, Purpose, RECURSION_ERROR, RUNTIME_ERROR, Raised, Running, Standing,
    TYPE_ERROR, Turn, Waiting, Writes, allot, arise_while, ask, base_of, begin_act, begin_block,
    below_top, class_object, end_block, enter_told, error, error_saying, give_back, go_on,
    hook_raised, is_silent, is_told, land, land_raise, leave_place, line, module_end, print,
    put_line, raise_in_place, reraise, tell, trace_answered, trace_failed,
};
