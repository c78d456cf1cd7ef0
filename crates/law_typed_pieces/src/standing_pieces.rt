//! That each instruction of a script's code may stand in a block of its kind. Definitions and a
//! law, without code.

mod laws;

pub use laws::instructions_may_stand;
