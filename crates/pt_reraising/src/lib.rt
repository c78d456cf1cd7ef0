//! `raise` alone in the machine of the whole run: the exception that is active goes on, or there is
//! none (Language Reference 7.8).
#![tactic(auto)]

mod laws;
mod raising;

pub use laws::raise_alone_does_as_in_a_run;
pub use pt_failing::{
    Answered, Asked, Base, BlockCode, Blocks, Called, CodeStanding, Course, Decided, Failed,
    Failing, Found, Given, Hook, Machine, MachineEnd, Opener, Phase, Progress, Purpose,
    RECURSION_ERROR, RUNTIME_ERROR, Raised, Returned, Running, Standing, TYPE_ERROR, Turn, Waiting,
    Wanted, Writes, allot, answer, arise, arise_while, ask, base_of, begin_act, begin_block,
    below_top, class_object, close, context_of, end_block, enter_told, error, error_saying, fail,
    give_back, go_on, hook_raised, is_silent, is_told, land, land_raise, leave_place, line,
    module_end, open, print, put_line, raise_in_place, reply, reraise, tell, tell_on,
    trace_answered, trace_failed,
};
pub use raising::raise_again;
