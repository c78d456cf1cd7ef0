//! How texts and integers are shown: `repr` of a text, and `format` by a spec (Library Reference,
//! `repr`, "Format Specification Mini-Language"). Each takes time linear in what it gives.
#![tactic(auto)]

mod layout;
mod number;
mod representation;
mod spec;
mod value;

pub use layout::format;
pub use representation::repr;
pub use value::FormatValue;
