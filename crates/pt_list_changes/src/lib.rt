//! What changes lists: items that are replaced, deleted or put behind the others, and the methods
//! that put items in, take them out or turn them round (Language Reference 6.2.4, 7.2, 7.5; Library
//! Reference, "Mutable Sequence Types").
#![tactic(auto)]

mod changed;
mod changes;
mod items;

pub use changed::{list_changed, list_grown};
pub use changes::{
    append_content, clear_content, copy_content, extend_content, insert_content, pop_content,
    pop_last_content, reverse_content,
};
pub use items::{delete_item_content, list_add_content, set_item_content, without_item};
pub use pt_sequences::not_subscriptable;
