//! In reached states the slots of a nest are those of its closed parts, with what `finally` parts
//! hold. Definitions and a law, without code.

mod laws;

pub use laws::reached_nests_are_filled;
