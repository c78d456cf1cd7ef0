//! How the arguments of a call are bound to the parameters of a function.
#![tactic(auto)]

mod arguments;
mod binding;
mod name_set;

pub use arguments::{Args, BindErr, Locals, Params};
pub use binding::{bind, bind_with};
