//! Base types of the debugger: numbers with names, lists and texts that contracts see as lists,
//! the budget of a run, and the outside world as a shelf of files and sinks of bytes.
#![tactic(auto)]

mod boxed;
mod budget;
mod calls;
mod dup;
mod failure;
mod memory;
mod numbers;
mod operators;
mod seq;
mod shared;
mod shelf;
mod sink;
mod stack;
mod text;
mod what;

pub use boxed::Boxed;
pub use budget::Budget;
pub use dup::Dup;
pub use failure::Failure;
pub use memory::Memory;
pub use numbers::{ActNo, BlockId, FrameNo, Line, ObjId, Pc};
pub use operators::{BinOp, CompareOp, UnOp};
pub use seq::Seq;
pub use shared::Shared;
pub use shelf::{MemShelf, Shelf, ShelfErr};
pub use sink::{MemSink, Sink, SinkErr};
pub use stack::Stack;
pub use text::Text;
pub use what::What;
