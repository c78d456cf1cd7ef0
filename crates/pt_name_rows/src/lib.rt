//! What instructions of names do: local names, cells, and names of the module (Language Reference
//! 4.2.2, 7.2, 7.5).
#![tactic(auto)]

mod cells;
mod globals;
mod locals;
mod unbound;

pub use cells::{cell, delete_cell, fresh_cell, push_cell, put_through, set_cell, value_through};
pub use globals::{delete_global, global, set_global};
pub use locals::{delete_local, fresh_local, local, put_at, set_local, value_at};
pub use pt_builtins::BuiltinLookup;
pub use pt_code_facts::BlockFacts;
pub use pt_moves::{
    Progress, constant, copy, copy_two, is_left_out, jump, leave, nop, pop, return_value,
    rotate_three, swap, take_one,
};
pub use unbound::unbound_global;
