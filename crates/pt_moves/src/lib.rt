//! What instructions do that move slots, give constants and go to places.
#![tactic(auto)]

mod constants;
mod moves;
mod taking;

pub use constants::constant;
pub use moves::{copy, copy_two, jump, leave, nop, pop, return_value, rotate_three, swap};
pub use sem_rows::heap_rows::Progress;
pub use sem_rows::{
    ASSERTION_ERROR, ATTRIBUTE_ERROR, BASE_EXCEPTION, Found, Manager, NoAttr, OBJECT,
    RUNTIME_ERROR, Raisable, TYPE_ERROR, allot, are_named, binding_text, bound_of, class_of,
    delete, derives, error, exit_arguments, initializer, instance, is_fixed, is_left_out, is_of,
    manager_of, missing_text, not_callable_text, raisable_of, store, values_given,
};
pub use taking::{take_movable, take_one, take_three, take_two, top_value};
