//! The result of a block is given to the ask that waited for it, in the machine of the whole run
//! (Language Reference 3.3.1, 4.1, 6.3.4).
#![tactic(auto)]

mod giving;
mod laws;

pub use giving::{Received, give, give_result};
pub use laws::results_are_given_as_in_a_run;
pub use pt_calling::{
    Answered, Asked, Base, BlockCode, Blocks, Called, CodeStanding, Course, Decided, Failed,
    Failing, Found, Given, Hook, Machine, MachineEnd, Opener, Phase, Progress, Purpose,
    RECURSION_ERROR, RUNTIME_ERROR, Raised, Returned, Running, Standing, TYPE_ERROR, Turn, Waiting,
    Wanted, Writes, allot, answer, arise, arise_while, ask, base_of, begin_act, begin_block,
    below_top, call, class_object, close, context_of, end_block, enter_told, error, error_saying,
    fail, give_back, go_on, hook_raised, is_silent, is_told, land, land_raise, leave_place, line,
    module_end, open, print, put_line, raise_again, raise_in_place, reply, reraise, tell, tell_on,
    trace_answered, trace_failed,
};
