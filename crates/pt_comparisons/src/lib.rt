//! Truth, identity, equality, order and membership of values (Language Reference 6.10, 6.11; Library
//! Reference, "Truth Value Testing").
#![tactic(auto)]

mod comparison;
mod equality;
mod membership;
mod order;
mod truth;
mod view;

pub use comparison::comparison_content;
pub use equality::Equality;
pub use order::{Difference, is_before};
pub use pt_reprs::{need_help, new_text, print_content, repr_content, str_content};
pub use pt_views::{
    add_content, asked_or, combined_content, combined_in_place, delete_item_content, dict_content,
    dict_method_content, item_content, iterator_content, length_content, list_content,
    next_content, range_content, repeated_list, repeated_tuple, set_content, set_item_content,
    set_method_content, starred_content, tuple_content, unpack_content,
};
pub use truth::{asked, inverse_content, truth_content, truth_value};
