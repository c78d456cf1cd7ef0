//! What the front end says of tables of scripts, a line a row.
#![tactic(auto)]

mod acts;
mod asked;
mod rows;
mod scopes;

use asked::Asked;
use std::process::ExitCode;
use test_notation::answer_tables;

fn main(rt: HostRuntime) -> ExitCode {
    answer_tables::<Asked, HostRuntime>(&rt)
}
