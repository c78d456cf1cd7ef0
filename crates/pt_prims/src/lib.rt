//! Operations on values: operators, truth, comparisons, displays, iteration, and calls of builtin
//! functions and of methods of builtin values (Language Reference 6 to 8; Library Reference,
//! "Built-in Functions", "Built-in Types", "Truth Value Testing").
#![tactic(auto)]

mod arithmetic;
mod attribute_calls;
mod calls;
mod classes;
mod hidden;
mod in_place;
mod integer_texts;
mod laws;
mod operation;
mod sequences;
mod spreads;
mod subscripts;
mod updates;

pub use attribute_calls::ATTRIBUTE_ERROR;
pub use calls::{STOP_ITERATION, class_of};
pub use classes::{Kinship, derives, is_of};
pub use laws::{answers_lie_within, errors_are_of_their_classes, keeps_sound, objects_stay};
pub use operation::prim;
pub use pt_methods::{Attribute, attribute_of, method_number, of_method_number, receiver_of};
pub use pt_special_methods::method_of;
pub use spreads::are_named;
