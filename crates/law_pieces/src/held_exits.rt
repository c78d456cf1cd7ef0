//! A `break` or a `continue` that a `finally` part holds stands in the body of the loop around that
//! part. Definitions and a law, without code.

mod laws;

pub use laws::what_is_held_leaves_the_loop_around;
