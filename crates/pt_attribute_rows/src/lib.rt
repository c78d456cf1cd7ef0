//! What instructions of attributes and of imports do (Language Reference 6.3.1, 7.2, 7.5, 7.11).
#![tactic(auto)]

mod attributes;
mod imports;

pub use attributes::{attribute, delete_attribute, set_attribute};
pub use imports::{import, import_name};
