//! The prelude: the functions, written in Python, that operations on values and builtins ask where
//! they call functions of a script (Library Reference, "Built-in Functions"; Language Reference
//! 3.3).
#![tactic(auto)]

mod asked;
mod helpers;
mod kinds;
mod source;

pub use asked::function_of;
pub use helpers::{block, builtin, helper, presets};
pub use kinds::{Helper, Preset};
pub use source::{PRELUDE, WHOLE_PRELUDE, text, whole_text};
