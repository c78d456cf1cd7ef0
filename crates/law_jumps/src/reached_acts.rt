//! What is said of each act in the nest that the tree gives it is said where runs of code come to
//! it, and there the slots have the kinds of their place. Laws, without code.

mod laws;

pub use laws::{acts_of_code_are_in_their_nests, runs_come_to_slots_of_their_places};
