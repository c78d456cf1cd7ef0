//! Acts that wait are done in the machine of the whole run: each run for which it stands comes to where
//! the row of the instruction leads (Language Reference 4.1). A law, without code.
#![tactic(auto)]

mod laws;

pub use laws::acts_that_wait_are_done_as_in_a_run;
pub use pt_making::{
    Answered, Asked, Base, BlockCode, Blocks, Called, CodeStanding, Course, Decided, Failed,
    Failing, Found, Given, Hook, Machine, MachineEnd, Opener, Phase, Progress, Purpose,
    RECURSION_ERROR, RUNTIME_ERROR, Raised, Received, Returned, Running, Standing, TYPE_ERROR,
    Turn, Waiting, Wanted, Writes, allot, answer, arise, arise_while, ask, base_of, begin_act,
    begin_block, below_top, call, class_object, close, context_of, end_block, enter_told, error,
    error_saying, fail, give, give_back, give_result, go_on, hook_raised, is_silent, is_told, land,
    land_raise, leave_place, line, make_class, module_end, open, print, put_line, raise_again,
    raise_in_place, reply, reraise, tell, tell_on, trace_answered, trace_failed,
};
