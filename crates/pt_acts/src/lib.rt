//! The acts of every block of a script, by block and number.
#![tactic(auto)]

mod block_acts;
mod blocks;
mod forms;
mod rows;
mod statement_blocks;
mod statement_rows;
mod table;

pub use block_acts::BlockActs;
pub use forms::{
    blocks_stand_in_source_order, each_compound_statement_has_its_acts,
    each_expression_has_its_acts, each_simple_statement_has_its_acts,
};
pub use table::{ActTable, acts};
