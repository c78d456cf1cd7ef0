//! Which kinds of slots the places of a block get.
#![tactic(auto)]

mod graph;
mod laws;
mod leads;
mod strays;
mod told;

pub use graph::{BlockKinds, first_run, kinds_up_to, number_of, numbered, place_at, without_edges};
pub use laws::kinds_come_along_edges;
pub use leads::{add_own, edges_of_row, is_enough, left, no_runs, sum};
