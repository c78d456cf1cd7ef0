//! What instructions do that make functions, what the arguments and the names of a called block
//! are, and what a set or deleted attribute comes to (Language Reference 4.2.2, 6.3.4, 6.14, 7.2,
//! 7.5, 8.7).
#![tactic(auto)]

mod arguments;
mod attributes;
mod functions;
mod opening;
mod values;

pub use arguments::{bindings, named_last};
pub use attributes::{missing, put_attribute, take_attribute};
pub use functions::make_function;
pub use opening::{is_among, open};
pub use pt_code_facts::{BlockFacts, Blocks};
pub use values::{take_cells, take_values};
