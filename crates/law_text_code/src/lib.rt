//! The runs of texts that are scripts and of their code, with jumps. Definitions and laws, without
//! code.
#![tactic(auto)]

mod laws;

pub use laws::{a_program_runs_as_its_code, a_text_runs_as_its_code};
