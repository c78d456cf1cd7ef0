//! Jumps out of loops lead to instructions, and so blocks agree.

mod laws;

pub use laws::{blocks_agree_where_instructions_stand, leaves_lead_to_instructions};
