//! Laws of the closed parts of code: the slots that lie in them, and the acts and statements of each.
#![tactic(auto)]

pub mod act_parts;
pub mod part_slots;
pub mod plain_slots;
pub mod script_parts;
