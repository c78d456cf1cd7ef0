//! Texts of values: what `str`, `repr` and `print` give (Library Reference, "Built-in Functions",
//! "Text Sequence Type"), and which values can't be written without methods of a script.
#![tactic(auto)]

mod dict_view;
mod quoted;
mod reached;
mod repr;
mod texts;
mod writer;

pub use dict_view::{shown, viewed};
pub use reached::{is_container, need_help, needs_help};
pub use repr::{error_start, tuple_end, view_start};
pub use texts::{
    KEY_ERROR, error_content, new_text, print_content, repr_content, repr_text, str_content,
    unwritten,
};
pub use writer::{WriteErr, Writer};
