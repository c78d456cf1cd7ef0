//! What instructions and calls do that make classes and instances, and what `super` gives (Language
//! Reference 3.3.1, 8.8; Library Reference, `super`).
#![tactic(auto)]

mod classes;
mod instances;
mod objects;
mod setting;
mod supers;

pub use classes::make_class;
pub use instances::{Instance, make_instance};
pub use objects::{make_object, place, refuses};
pub use pt_names::Names;
pub use setting::call_setattr;
pub use supers::make_super;
