//! What the readers of the wide grammar say of texts, a line a row.
#![tactic(auto)]

mod answers;
mod asked;

use asked::Asked;
use std::process::ExitCode;
use test_notation::answer_tables;

fn main(rt: HostRuntime) -> ExitCode {
    answer_tables::<Asked, HostRuntime>(&rt)
}
