//! A class is made in the machine of the whole run of the names that its body has bound (Language
//! Reference 8.8).
#![tactic(auto)]

mod laws;
mod making;

pub use laws::classes_are_made_as_in_a_run;
pub use making::make_class;
pub use pt_giving::{
    Answered, Asked, Base, BlockCode, Blocks, Called, CodeStanding, Course, Decided, Failed,
    Failing, Found, Given, Hook, Machine, MachineEnd, Opener, Phase, Progress, Purpose,
    RECURSION_ERROR, RUNTIME_ERROR, Raised, Received, Returned, Running, Standing, TYPE_ERROR,
    Turn, Waiting, Wanted, Writes, allot, answer, arise, arise_while, ask, base_of, begin_act,
    begin_block, below_top, call, class_object, close, context_of, end_block, enter_told, error,
    error_saying, fail, give, give_back, give_result, go_on, hook_raised, is_silent, is_told, land,
    land_raise, leave_place, line, module_end, open, print, put_line, raise_again, raise_in_place,
    reply, reraise, tell, tell_on, trace_answered, trace_failed,
};
