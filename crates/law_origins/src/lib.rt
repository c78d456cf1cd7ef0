//! Laws of the place from which a raise comes that takes the place of a reply: each instruction tells
//! where it lands by that place and a number of slots. Definitions and laws, without code.
#![tactic(auto)]

mod laws;

pub use laws::{instructions_tell_where_raises_land, raises_of_hooks_land_where_replies_do};
