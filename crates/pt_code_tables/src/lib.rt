//! What a run reads of its code: its blocks, and what the numbers in operands name.
#![tactic(auto)]

mod tables;

pub use pt_builtins::{BuiltinLookup, meaning};
pub use pt_machine_state::{
    BlockCode, Blocks, Machine, MachineEnd, Progress, SideBlocks, Standing, Stride, Writes,
    blocks_of, facts_of, not_supported,
};
pub use tables::{CodeTables, PoolTables};
