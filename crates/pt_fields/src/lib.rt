//! F-strings: the text of a replacement field by its conversion and its format spec, and the text of
//! all parts (Language Reference 2.4.3; Library Reference, "Format Specification Mini-Language").
#![tactic(auto)]

mod field;

pub use field::{format_content, join_content};
pub use pt_text_operations::{
    joined_content, slice_content, subscript_content, text_method_content,
};
