//! How many slots lie at each place of a script's code. Definitions and a law, without code.

mod laws;

pub use laws::a_script_has_its_sizes;
