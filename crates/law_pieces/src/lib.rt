//! Laws of the pieces of which code is laid out: their kinds, exits, acts and starts, and of the
//! pieces of a whole script.
#![tactic(auto)]

pub mod first_starts;
pub mod forward_pieces;
pub mod held_exits;
pub mod origin_parts;
pub mod piece_acts;
pub mod piece_kinds;
pub mod script_code;
pub mod script_pieces;
