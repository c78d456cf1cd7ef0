//! That bare runs suit the host over the heap: it requests nothing but that blocks run.
#![tactic(auto)]

mod laws;

pub use laws::the_host_only_has_blocks_run;
