//! What trace functions change in the machine of the whole run by what they answer, and where they
//! raise (Library Reference, `sys.settrace`).
#![tactic(auto)]

mod changes;
mod laws;

pub use changes::{trace_answered, trace_failed};
pub use laws::trace_functions_do_as_in_a_run;
pub use pt_run_state::{
    Base, BlockCode, Blocks, Called, CodeStanding, Course, Machine, MachineEnd, Opener, Phase,
    Progress, Purpose, RECURSION_ERROR, RUNTIME_ERROR, Running, Standing, TYPE_ERROR, Turn,
    Waiting, Writes, allot, arise_while, base_of, class_object, error, error_saying, give_back,
    is_told, land, leave_place, line, print, put_line,
};
