//! Events of the machine of the whole run are told: which happening becomes one, who is asked next
//! at one, and what the log has of it (Library Reference, `sys.settrace`, `sys.monitoring`).
#![tactic(auto)]

mod asking;
mod entering;
mod laws;
mod logging;
mod telling;

pub use asking::{Found, ask};
pub use entering::enter_told;
pub use laws::{asking_is_steps_of_a_run, telling_is_steps_of_a_run};
pub use pt_asking::Hook;
pub use pt_tracing::{
    Base, BlockCode, Blocks, Called, CodeStanding, Course, Machine, MachineEnd, Opener, Phase,
    Progress, Purpose, RECURSION_ERROR, RUNTIME_ERROR, Running, Standing, TYPE_ERROR, Turn,
    Waiting, Writes, allot, arise_while, base_of, class_object, error, error_saying, give_back,
    is_told, land, leave_place, line, print, put_line, trace_answered, trace_failed,
};
pub use telling::{is_silent, tell};
