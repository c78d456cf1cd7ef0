//! Results of blocks and generators, and what they do to what waits for them. Definitions and laws,
//! without code.

mod laws;

pub use laws::results_go_to_what_waits;
