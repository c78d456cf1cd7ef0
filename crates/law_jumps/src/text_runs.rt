//! The code of a text that is a script has the runs of the script, with jumps. A law, without code.

mod laws;

pub use laws::a_text_has_the_runs_of_its_code;
