//! Dictionaries: values as keys, displays, subscripts, membership and methods (Language Reference
//! 6.2.7, 6.3.2, 6.10.2, 7.2, 7.5; Library Reference, "Mapping Types").
#![tactic(auto)]

mod entering;
mod item;
mod keyed;
mod method;

pub use entering::{dict_content, enter};
pub use item::{delete_item_content, has_key_content, item_content, removed, set_item_content};
pub use keyed::{KEY_ERROR, Keyed, changed, contains_by, key_in, missing};
pub use method::dict_method_content;
