//! From the starts of statements code goes on as control does, in their closed parts. A law, without
//! code.

mod laws;

pub use laws::statements_start_in_nests;
