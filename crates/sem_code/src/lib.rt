//! The machine of code: what each instruction does with slots, where the code of a script stands, and
//! that it follows control.
#![tactic(auto)]

pub mod comp;
pub mod comp_expr;
pub mod silent_turns;
pub mod slots;
