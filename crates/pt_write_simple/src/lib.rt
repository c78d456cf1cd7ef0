//! Writes the code of simple statements and of definitions (Language Reference 7, 8.7, 8.8): from the
//! tree straight into the writer of a block, in linear time.
#![tactic(auto)]

mod assignments;
mod definitions;
mod deletions;
mod imports;
mod leaving;
mod names;
mod values;

pub use assignments::{annotated_assignment, assignment, augmented_assignment};
pub use definitions::{class_definition, function_definition};
pub use deletions::deletion;
pub use imports::{import_from_statement, import_statement};
pub use leaving::{assertion, exit_statement, raise_statement, return_statement};
pub use names::{store_name, unbind_name};
pub use pt_comp_expr::{Surroundings, clauses, turn};
pub use pt_stm_forms::OpenContext;
pub use values::{bind_target, expression_statement, optional_value, value_code};
