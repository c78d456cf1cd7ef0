//! Calls of blocks: what arguments bind, what the value of a block is for, and the functions of the
//! prelude that operations ask (Language Reference 3.3, 6.3.4).
#![tactic(auto)]

mod asking;
mod blocks;
mod helpers;
mod names;

pub use asking::{answer_or_ask, answer_unless_asked, ask, ask_with, operate_or_ask};
pub use blocks::{Given, append, call_function, function_of, with_receiver};
pub use helpers::{with_first, without_names};
pub use pt_class_rows::{
    Instance, Names, call_setattr, make_class, make_instance, make_object, make_super, place,
};
pub use pt_function_rows::{
    BlockFacts, Blocks, make_function, missing, named_last, open, take_values,
};
pub use pt_operators::{
    BASE_EXCEPTION, Manager, Outcome, Progress, TYPE_ERROR, allot, are_named, bound_of, derives,
    error, exit_arguments, give, manager_of, method_of, not_callable_text, of_method_number,
    outcome_of, take_one, take_three, take_two, values_given,
};
