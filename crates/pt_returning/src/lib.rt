//! The newest activation of the machine of the whole run closes, and its result goes to what waits for
//! it: an ask, or a hook (Language Reference 4.1, 6.3.4).
#![tactic(auto)]

mod closing;
mod laws;

pub use closing::{Returned, close};
pub use laws::results_go_on_as_in_a_run;
pub use pt_opening::{
    Base, BlockCode, Blocks, Called, CodeStanding, Course, Found, Hook, Machine, MachineEnd,
    Opener, Phase, Progress, Purpose, RECURSION_ERROR, RUNTIME_ERROR, Raised, Running, Standing,
    TYPE_ERROR, Turn, Waiting, Wanted, Writes, allot, arise_while, ask, base_of, begin_act,
    begin_block, below_top, class_object, end_block, enter_told, error, error_saying, give_back,
    go_on, hook_raised, is_silent, is_told, land, land_raise, leave_place, line, module_end, open,
    print, put_line, raise_in_place, reraise, tell, trace_answered, trace_failed,
};
