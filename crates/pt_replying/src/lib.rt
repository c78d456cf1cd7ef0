//! Replies with a value go on in the machine of the whole run: what is told of them, and what goes on
//! behind that (Language Reference 4.1; Library Reference, `sys.monitoring`).
#![tactic(auto)]

mod laws;
mod replying;

pub use laws::{replies_go_on_as_in_a_run, what_is_told_goes_on_as_in_a_run};
pub use pt_returning::{
    Base, BlockCode, Blocks, Called, CodeStanding, Course, Found, Hook, Machine, MachineEnd,
    Opener, Phase, Progress, Purpose, RECURSION_ERROR, RUNTIME_ERROR, Raised, Returned, Running,
    Standing, TYPE_ERROR, Turn, Waiting, Wanted, Writes, allot, arise_while, ask, base_of,
    begin_act, begin_block, below_top, class_object, close, end_block, enter_told, error,
    error_saying, give_back, go_on, hook_raised, is_silent, is_told, land, land_raise, leave_place,
    line, module_end, open, print, put_line, raise_in_place, reraise, tell, trace_answered,
    trace_failed,
};
pub use replying::{Decided, Given, reply, tell_on};
