//! Laws of jumps in the code of a script: the nests and parts in which acts are reached.
#![tactic(auto)]

pub mod acts_in_parts;
pub mod filled_nests;
pub mod reached_acts;
pub mod script_act_parts;
pub mod script_acts;
pub mod start_nests;
pub mod text_parts;
pub mod text_runs;
