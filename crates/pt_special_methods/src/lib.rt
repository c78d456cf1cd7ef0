//! What functions that are written in Python ask of instances of a script's classes, and of what
//! their special methods give (Language Reference 3.3; Library Reference, "Built-in Functions").
#![tactic(auto)]

mod containers;
mod given;
mod instances;
mod refusals;

pub use containers::{dots, parts_of, wrap};
pub use given::{length_given, text_given, truth_given, write_by};
pub use instances::{get_name, has_name, holds_instance, is_error, method_of};
pub use pt_reprs::repr_text;
pub use refusals::refuse;
