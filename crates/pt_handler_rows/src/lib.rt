//! What instructions of handlers and of `finally` parts do (Language Reference 8.4).
#![tactic(auto)]

mod handlers;

pub use handlers::{caught, end_finally, end_handler, normal, rethrow};
