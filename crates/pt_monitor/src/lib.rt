//! The tools of sys.monitoring: their sets of events, their callbacks, and where events are switched
//! off (PEP 669; Library Reference, sys.monitoring).
#![tactic(auto)]

mod error;
mod event;
mod laws;
mod maps;
mod place;
pub mod rows;
mod set;
mod tool;
mod tools;

pub use error::ToolErr;
pub use event::{EVENTS, MonEvent};
pub use laws::{
    a_mask_tells_who_is_wanted, disable_switches_off_one_place, restart_is_for_all_tools,
    tools_that_are_alike_answer_alike,
};
pub use set::EventSet;
pub use tool::Tool;
pub use tools::Tools;
