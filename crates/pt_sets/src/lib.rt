//! Sets: displays, membership, methods and operators (Language Reference 6.2.6, 6.7, 6.9, 6.10.2,
//! 7.2.1; Library Reference, "Set Types").
#![tactic(auto)]

mod members;
mod method;
mod operator;

pub use members::{add_content, has_item_content, same_items, set_content};
pub use method::set_method_content;
pub use operator::{combined_content, combined_in_place};
