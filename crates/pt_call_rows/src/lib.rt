//! What instructions do that call, up to the run of a block (Language Reference 6.3.4).
#![tactic(auto)]

mod calls;
mod helpers;
mod operands;
mod roles;

pub use calls::{call, call_value, call_with_names, call_with_roles};
pub use pt_block_calls::{
    BlockFacts, Blocks, Given, Names, Progress, answer_unless_asked, call_function, give,
    make_class, make_function, method_of, operate_or_ask, take_one, take_two, take_values,
    with_first, with_receiver, without_names,
};
