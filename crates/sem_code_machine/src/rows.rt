//! What instructions do in the newest activation, on its slots and by the answers of a host.

mod laws;

pub use laws::a_run_over_code_does_rows;
