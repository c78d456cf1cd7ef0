//! That the run of a code has one outcome, whatever code objects of its blocks it runs. Definitions
//! and laws, without code.

mod laws;

pub use laws::{a_code_runs_to_one_outcome, an_outcome_begins_with_what_its_code_writes_first};
