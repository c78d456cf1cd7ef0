//! Bare runs of code beside its runs. Definitions and a law, without code.

mod laws;

pub use laws::bare_runs_of_code_are_its_runs;
