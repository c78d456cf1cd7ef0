//! Tables over the places of a block's code: the acts that begin there and their lines, and the
//! handlers that cover a place.
#![tactic(auto)]

mod handlers;
mod lines;

pub use handlers::{Handler, HandlerTable};
pub use lines::{ActMark, LineTable};
