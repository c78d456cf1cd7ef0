//! An act begins in the machine of the whole run: it takes its unit, and its line is told (Language
//! Reference 4.1; PEP 626).
#![tactic(auto)]

mod acts;
mod laws;

pub use acts::begin_act;
pub use laws::acts_begin_as_in_a_run;
pub use pt_turning::{
    Base, BlockCode, Blocks, Called, CodeStanding, Course, Found, Hook, Machine, MachineEnd,
    Opener, Phase, Progress, Purpose, RECURSION_ERROR, RUNTIME_ERROR, Running, Standing,
    TYPE_ERROR, Turn, Waiting, Writes, allot, arise_while, ask, base_of, begin_block, below_top,
    class_object, end_block, enter_told, error, error_saying, give_back, go_on, is_silent, is_told,
    land, land_raise, leave_place, line, print, put_line, reraise, tell, trace_answered,
    trace_failed,
};
