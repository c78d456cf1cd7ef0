//! What the front end answers for scripts that nest each production as deep as the limits allow, a line
//! a row.
#![tactic(auto)]

mod asked;
mod pieces;

use asked::Asked;
use std::process::ExitCode;
use test_notation::answer_tables;

fn main(rt: HostRuntime) -> ExitCode {
    answer_tables::<Asked, HostRuntime>(&rt)
}
