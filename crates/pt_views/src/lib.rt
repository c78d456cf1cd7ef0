//! Iterators over dictionaries, sets and views of dictionaries, and what is unpacked (Language
//! Reference 7.2, 8.3; Library Reference, "Iterator Types", "Dictionary view objects").
#![tactic(auto)]

mod cursor;
mod items;
mod unpacking;

pub use cursor::{RUNTIME_ERROR, dict_at, iterator_content, next_content};
pub use pt_mappings::{
    Keyed, delete_item_content, dict_content, dict_method_content, has_key_content, item_content,
    key_in, set_item_content,
};
pub use pt_sequences::{
    asked_or, has_integer, length_content, length_of, list_content, range_content, range_length,
    repeated_list, repeated_tuple, tuple_content,
};
pub use pt_sets::{
    add_content, combined_content, combined_in_place, has_item_content, same_items, set_content,
    set_method_content,
};
pub use unpacking::{starred_content, unpack_content};
