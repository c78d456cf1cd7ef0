//! Operations on texts: methods, and slices, also those of lists, tuples and ranges (Language Reference
//! 6.3.3; Library Reference, "Text Sequence Type", "Common Sequence Operations", "Ranges").
#![tactic(auto)]

mod answer;
mod bounds;
mod ends;
mod joining;
mod lists;
mod methods;
mod occurrences;
mod picked;
mod place;
mod ranges;
mod slice;

pub use answer::answered;
pub use joining::joined_content;
pub use methods::text_method_content;
pub use slice::{slice_content, subscript_content};
