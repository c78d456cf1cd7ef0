//! The tokens of texts, or why they have none, a line a row.
#![tactic(auto)]

mod asked;
mod refusals;
mod spelling;

use asked::Asked;
use std::process::ExitCode;
use test_notation::answer_tables;

fn main(rt: HostRuntime) -> ExitCode {
    answer_tables::<Asked, HostRuntime>(&rt)
}
