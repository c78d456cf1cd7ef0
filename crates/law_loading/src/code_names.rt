//! That the operands of a supported script's code name what their blocks have, so that in each run
//! of the code each activation has the names of its block (Language Reference 4.2.2, 8.7).

mod laws;

pub use laws::{supported_code_names_its_blocks, supported_code_runs_with_its_names};
