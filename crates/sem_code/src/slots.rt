//! The machine of code: what each instruction does with slots, in the asks of control.

mod laws;

pub use laws::{
    a_state_is_stuck_where_its_instruction_lacks, an_act_begins_at_each_mark,
    scripts_are_followed_by_their_code,
};
