//! Writes what of the code of expressions and targets has no expression in it (Language Reference 6,
//! 7.2): names and operations behind their operands, the names that comprehensions make anew, and the
//! ends of links and of comprehensions.
#![tactic(auto)]

mod comprehensions;
mod leaves;
mod links;
mod parameters;
mod renewal;
mod surroundings;

pub use comprehensions::{end_comprehension, one_more};
pub use leaves::{
    bind_attribute, bind_name, call_code, delegate, get_attribute, join, make_generator, name_code,
    push_captured, unpack,
};
pub use links::{begin_link, end_links};
pub use parameters::defaulted_names;
pub use pt_expr_forms::{Begun, Built, Display, Innermost};
pub use renewal::renew_clauses;
pub use surroundings::{Surroundings, still_due};
