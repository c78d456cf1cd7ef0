//! Attributes of values (Language Reference 3.2, 3.3.2, 6.3.1; Library Reference, `super`).
#![tactic(auto)]

mod look;
mod names;
mod unbuilt;

pub use look::{Found, NoAttr, class_attribute, lookup, object_of, super_of};
pub use names::{delete, store};
pub use pt_dicts::{class_at, combine, object_at};
pub use unbuilt::is_special;
