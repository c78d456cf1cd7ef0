//! Code in which no state is far from an act or from the end. Laws, without code.

mod laws;

pub use laws::code_that_goes_ahead_comes_to_rest;
