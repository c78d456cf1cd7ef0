//! Ranks of the vertices of a graph that fall along each edge, or the least vertex on a cycle.
#![tactic(auto)]

mod cycles;
mod graph;
mod search;

pub use cycles::{Cycles, least_on_cycle};
pub use graph::Graph;
pub use search::components;
