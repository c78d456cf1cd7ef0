//! The steps between the places of a block as a graph, with handler rows over many places.
#![tactic(auto)]

mod adding;
mod exits;
mod graph;

pub use exits::Exits;
pub use graph::cycles_of_steps;
pub use pt_cycles::Cycles;

#[cfg(test)]
mod tests;
