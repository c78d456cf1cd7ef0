//! Values and objects of a run: a heap as a list of objects, dictionaries in the order of their
//! insertion, how a block is left, and what a debugger is shown of the open frames.
#![tactic(auto)]

mod completion;
mod dict;
mod dup;
mod entries;
mod heap;
mod items;
mod key;
mod object;
mod seed;
mod string;
mod value;
mod view;

pub use completion::Completion;
pub use dict::{Dict, DictErr};
pub use entries::{Entries, EntryRef};
pub use heap::{Heap, HeapErr, Mark};
pub use key::Key;
pub use object::{
    Builtin, Class, Cursor, DictView, Error, Function, Instance, Method, Module, Object, Part,
    Range, Slice, Super, TraceEntry,
};
pub use seed::Seed;
pub use string::Str;
pub use value::Value;
pub use view::{Binding, View, ViewFrame};
