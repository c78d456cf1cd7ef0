//! From a tree of the wide grammar to a tree of the language, or what the language leaves out
//! (Language Reference 6 to 8).
#![tactic(auto)]

mod copies;
mod expression_faults;
mod expression_trees;
mod fault;
mod faults;
mod forms;
mod kept;
mod language;
pub mod laws;
mod narrower;
mod narrowing;
mod nodes;
mod stars;
mod statement_faults;
mod unnarrowed;

pub use copies::{copied_aliases, copied_name};
pub use expression_trees::{boxed, boxed_parameters, expression, target, targets};
pub use fault::Fault;
pub use faults::{first_fault, first_fault_of_expr};
pub use language::{narrow_expr, told};
pub use narrower::Narrower;
pub use narrowing::Narrowing;
pub use stars::Stars;
pub use statement_faults::is_generator;
pub use unnarrowed::Unnarrowed;
