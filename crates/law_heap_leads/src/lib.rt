//! Answers of the host over the heap to the asks of a run. A law, without code.
#![tactic(auto)]

mod laws;

pub use laws::iterators_end_by_themselves;
