//! Verified code: that its tables tell what jumps ask, and that its run never halts. Definitions and
//! laws, without code.
#![tactic(auto)]

mod laws;

pub use laws::{
    tables_of_code_tell_what_jumps_ask, tables_tell_what_jumps_ask, verified_code_never_halts,
};
