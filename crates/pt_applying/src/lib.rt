//! What an instruction came to is done in the machine of the whole run, whatever it is: a reply, a call
//! of a block, an exception (Language Reference 4.1).
#![tactic(auto)]

mod applying;
mod fitting;
mod knowing;
mod laws;

pub use applying::{Applied, apply};
pub use fitting::{leaves_silently, raises_as_itself};
pub use knowing::{decision_of, known_call, tested_in};
pub use law_doing::{
    Answered, Asked, Base, BlockCode, Blocks, Called, CodeStanding, Course, Decided, Failed,
    Failing, Found, Given, Hook, Machine, MachineEnd, Opener, Phase, Progress, Purpose,
    RECURSION_ERROR, RUNTIME_ERROR, Raised, Received, Returned, Running, Standing, TYPE_ERROR,
    Turn, Waiting, Wanted, Writes, allot, answer, arise, arise_while, ask, base_of, begin_act,
    begin_block, below_top, call, class_object, close, context_of, end_block, enter_told, error,
    error_saying, fail, give, give_back, give_result, go_on, hook_raised, is_silent, is_told, land,
    land_raise, leave_place, line, make_class, module_end, open, print, put_line, raise_again,
    raise_in_place, reply, reraise, tell, tell_on, trace_answered, trace_failed,
};
pub use laws::{acts_that_wait_are_applied_as_in_a_run, instructions_do_as_in_a_run};
