//! Instructions call blocks in the machine of the whole run (Language Reference 4.1, 6.3.4, 8.8).
#![tactic(auto)]

mod calling;
mod laws;

pub use calling::call;
pub use laws::calls_open_blocks_as_in_a_run;
pub use pt_reraising::{
    Answered, Asked, Base, BlockCode, Blocks, Called, CodeStanding, Course, Decided, Failed,
    Failing, Found, Given, Hook, Machine, MachineEnd, Opener, Phase, Progress, Purpose,
    RECURSION_ERROR, RUNTIME_ERROR, Raised, Returned, Running, Standing, TYPE_ERROR, Turn, Waiting,
    Wanted, Writes, allot, answer, arise, arise_while, ask, base_of, begin_act, begin_block,
    below_top, class_object, close, context_of, end_block, enter_told, error, error_saying, fail,
    give_back, go_on, hook_raised, is_silent, is_told, land, land_raise, leave_place, line,
    module_end, open, print, put_line, raise_again, raise_in_place, reply, reraise, tell, tell_on,
    trace_answered, trace_failed,
};
