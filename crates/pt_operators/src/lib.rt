//! What the answers of operations on values come to (Language Reference 6.5 to 6.12, 7.2.1).
#![tactic(auto)]

mod operators;

pub use operators::{Outcome, answered, ask, give, outcome_of};
pub use pt_moves::{
    BASE_EXCEPTION, Manager, Progress, TYPE_ERROR, allot, are_named, bound_of, derives, error,
    exit_arguments, manager_of, not_callable_text, take_one, take_three, take_two, values_given,
};
pub use pt_prims::{method_of, of_method_number, prim};
