//! Answers to instructions go on in the machine of the whole run, by what their rows tell (Language
//! Reference 4.1, 7.6 to 7.10, 8.4).
#![tactic(auto)]

mod answering;
mod laws;

pub use answering::{Answered, Asked, answer};
pub use laws::answers_go_on_as_in_a_run;
pub use pt_arising::{
    Base, BlockCode, Blocks, Called, CodeStanding, Course, Decided, Found, Given, Hook, Machine,
    MachineEnd, Opener, Phase, Progress, Purpose, RECURSION_ERROR, RUNTIME_ERROR, Raised, Returned,
    Running, Standing, TYPE_ERROR, Turn, Waiting, Wanted, Writes, allot, arise, arise_while, ask,
    base_of, begin_act, begin_block, below_top, class_object, close, end_block, enter_told, error,
    error_saying, give_back, go_on, hook_raised, is_silent, is_told, land, land_raise, leave_place,
    line, module_end, open, print, put_line, raise_in_place, reply, reraise, tell, tell_on,
    trace_answered, trace_failed,
};
