//! The state of the machine of code: its activations and heap, the tables of the code that it runs,
//! and what it has to write.
#![tactic(auto)]

mod blocks;
mod laws;
mod machine;
mod writes;

pub use blocks::{BlockCode, Blocks, SideBlocks};
pub use laws::{
    blocks_end_as_in_a_run, blocks_open_as_in_a_run, exceptions_arise_as_in_a_run,
    instructions_are_strides, results_are_taken_as_in_a_run,
    the_machine_goes_where_instructions_lead,
};
pub use machine::{Machine, MachineEnd, Standing, Stride};
pub use pt_code_facts::{Progress, blocks_of, facts_of, not_supported};
pub use writes::{Write, Writes};
