//! Instructions fail in the machine of the whole run: the exceptions that they raise or make arise, or
//! the run leaves the profile of the language (Language Reference 7.8, 8.4).
#![tactic(auto)]

mod failing;
mod laws;

pub use failing::{Failed, Failing, context_of, fail};
pub use laws::failures_arise_as_in_a_run;
pub use pt_answering::{
    Answered, Asked, Base, BlockCode, Blocks, Called, CodeStanding, Course, Decided, Found, Given,
    Hook, Machine, MachineEnd, Opener, Phase, Progress, Purpose, RECURSION_ERROR, RUNTIME_ERROR,
    Raised, Returned, Running, Standing, TYPE_ERROR, Turn, Waiting, Wanted, Writes, allot, answer,
    arise, arise_while, ask, base_of, begin_act, begin_block, below_top, class_object, close,
    end_block, enter_told, error, error_saying, give_back, go_on, hook_raised, is_silent, is_told,
    land, land_raise, leave_place, line, module_end, open, print, put_line, raise_in_place, reply,
    reraise, tell, tell_on, trace_answered, trace_failed,
};
