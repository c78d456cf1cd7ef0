//! What the marks of instructions make of them in the machine of the whole run: an instruction with a
//! mark is an act, and one without takes no unit (Language Reference 4.1). Laws, without code.
#![tactic(auto)]

mod laws;

pub use laws::{
    code_asks_from_its_places, instructions_with_marks_are_acts,
    instructions_without_marks_take_no_unit, operations_of_no_tree_call_nothing,
};
