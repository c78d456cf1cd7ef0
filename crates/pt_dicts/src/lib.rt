//! Values as keys of dictionaries and sets, and operations on sets (Language Reference 6.2.7;
//! Library Reference, `hash`, "Set Types").
#![tactic(auto)]

mod chain;
mod codes;
mod key;
mod laws;
mod sets;

pub use chain::{class_at, class_value, object_at};
pub use codes::name_key;
pub use key::{KeyErr, key_of};
pub use laws::a_key_is_of_one_value;
pub use sets::combine;
