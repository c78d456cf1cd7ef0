//! What the raises of hooks do in the machine of the whole run (Library Reference,
//! `sys.settrace`, `sys.monitoring`).
#![tactic(auto)]

mod laws;
mod raising;

pub use laws::raises_of_hooks_do_as_in_a_run;
pub use pt_closing::{
    Base, BlockCode, Blocks, Called, CodeStanding, Course, Found, Hook, Machine, MachineEnd,
    Opener, Phase, Progress, Purpose, RECURSION_ERROR, RUNTIME_ERROR, Running, Standing,
    TYPE_ERROR, Turn, Waiting, Writes, allot, arise_while, ask, base_of, begin_act, begin_block,
    below_top, class_object, end_block, enter_told, error, error_saying, give_back, go_on,
    is_silent, is_told, land, land_raise, leave_place, line, module_end, print, put_line, reraise,
    tell, trace_answered, trace_failed,
};
pub use raising::{Raised, hook_raised, raise_in_place};
