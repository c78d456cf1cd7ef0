//! Attributes of builtin values, and calls of their methods (Language Reference 6.3.1; Library
//! Reference, "Built-in Types").
#![tactic(auto)]

mod attribute;
mod lists;
mod method;
mod names;
mod search;

pub use attribute::{Attribute, attribute_of, receiver_of};
pub use method::method_content;
pub use names::{METHODS, method_number, of_method_number};
pub use pt_comparisons::{
    add_content, asked, asked_or, combined_content, combined_in_place, comparison_content,
    delete_item_content, dict_content, inverse_content, item_content, iterator_content,
    length_content, list_content, new_text, next_content, print_content, range_content,
    repeated_list, repeated_tuple, repr_content, set_content, set_item_content, starred_content,
    str_content, truth_content, truth_value, tuple_content, unpack_content,
};
pub use pt_fields::{
    format_content, join_content, joined_content, slice_content, subscript_content,
};
pub use pt_list_changes::{
    delete_item_content as delete_list_item, list_add_content, list_changed, not_subscriptable,
    set_item_content as set_list_item,
};
