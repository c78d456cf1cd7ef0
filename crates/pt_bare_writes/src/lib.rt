//! What bare runs write first, whether or not they come to an outcome. Definitions and laws,
//! without code.
#![tactic(auto)]

mod laws;

pub use laws::{
    a_front_of_a_bare_run_is_one_of_the_run, an_outcome_begins_with_what_is_written_first,
};
