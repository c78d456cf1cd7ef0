//! The state of the machine of the whole run: the machine of code in its newest activation, what is
//! going on there, the activations that wait, generators, trace functions and tools, and what a turn
//! of it comes to. Types, when such a machine stands for a state of a run, and what its turns are to
//! do.
#![tactic(auto)]

mod machine;

pub use machine::{Machine, Phase, Turn, Waiting};
pub use pt_purposes::{
    Base, Called, Course, Opener, Progress, Purpose, RECURSION_ERROR, RUNTIME_ERROR, Running,
    Standing, TYPE_ERROR, allot, arise_while, base_of, class_object, error, error_saying,
};
pub use pt_transfers::{
    BlockCode, Blocks, MachineEnd, Standing as CodeStanding, Writes, event as put_line, give_back,
    is_told, land, leave_place, line, print,
};
