//! Laws of the kinds of slots at the places of pieces: lines and starts of statements, leaves, loops,
//! tables, and where instructions stand.
#![tactic(auto)]

pub mod agreement;
pub mod leave_targets;
pub mod script_loops;
pub mod script_tables;
pub mod silent_loops;
pub mod standing_pieces;
pub mod start_lines;
pub mod statement_starts;
pub mod typed_pieces;
