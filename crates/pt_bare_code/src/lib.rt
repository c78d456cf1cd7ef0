//! That code has the bare runs of its script. Definitions and laws, without code.
#![tactic(auto)]

mod laws;

pub use laws::{
    code_has_the_bare_runs_of_its_script, code_that_gives_nothing_on_is_never_stuck,
    machines_that_follow_turns_have_the_same_bare_runs,
};
