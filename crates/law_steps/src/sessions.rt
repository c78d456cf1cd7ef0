//! What steps and a debugger's advice come to as the run of a session. Definitions and a law, without
//! code.

mod laws;

pub use laws::steps_and_advice_are_the_run;
