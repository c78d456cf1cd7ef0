//! Tests of the host: each call that takes memory, run with ample memory.
#![tactic(auto)]

#[cfg(test)]
mod exceptions;
