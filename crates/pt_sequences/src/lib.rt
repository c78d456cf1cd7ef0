//! Sequences: ranges, lengths, displays of lists and tuples, iterators, items and unpacking (Language
//! Reference 6.2.5, 6.3.2, 6.15, 7.2, 8.3; Library Reference, "Sequence Types").
#![tactic(auto)]

mod cursor;
mod display;
mod item;
mod range;
mod size;
mod starred;
mod unpacking;

pub use cursor::{asked_or, iterator_content, next_content, text_of_char};
pub use display::{list_content, repeated_list, repeated_tuple, tuple_content};
pub use item::{item_content, not_subscriptable};
pub use range::{has_integer, range_content, range_length, range_value};
pub use size::{length_content, length_of};
pub use starred::starred_content;
pub use unpacking::{integers, unpack_content};
