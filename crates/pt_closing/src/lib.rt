//! Activations of the machine of the whole run close: so far that of the module, with which the run
//! ends (Language Reference 4.1).
#![tactic(auto)]

mod ends;
mod laws;

pub use ends::module_end;
pub use laws::modules_end_as_in_a_run;
pub use pt_beginning::{
    Base, BlockCode, Blocks, Called, CodeStanding, Course, Found, Hook, Machine, MachineEnd,
    Opener, Phase, Progress, Purpose, RECURSION_ERROR, RUNTIME_ERROR, Running, Standing,
    TYPE_ERROR, Turn, Waiting, Writes, allot, arise_while, ask, base_of, begin_act, begin_block,
    below_top, class_object, end_block, enter_told, error, error_saying, give_back, go_on,
    is_silent, is_told, land, land_raise, leave_place, line, print, put_line, reraise, tell,
    trace_answered, trace_failed,
};
