//! The program's one public call, `top`: from the words of a command line to what is written and
//! how it ends.
#![tactic(auto)]

mod build;
mod counting;
mod dis;
mod end;
mod ending;
mod exec;
mod laws;
mod log_text;
mod prelude;
mod program;
mod reporting;
mod running;
mod summing;

pub use end::{CodeRefusal, End, File, status};
pub use laws::a_text_prints_one_output;
pub use program::{CODE_LIMIT, SCRIPT_LIMIT, top};
pub use pt_sinks::Out;
