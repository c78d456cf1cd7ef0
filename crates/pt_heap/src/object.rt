use crate::{Binding, Dict, Str, Value};
use pt_base::{BlockId, FrameNo, Line, ObjId, Seq, Text};

/// A range of integers (Library Reference, "Ranges").
#[derive(Clone, Copy, Debug)]
pub struct Range {
    pub start: i128,
    pub stop: i128,
    pub step: i128,
}

/// The index of a subscript by a slice (Language Reference 6.3.3).
#[derive(Clone, Copy, Debug)]
pub struct Slice {
    pub start: Value,
    pub stop: Value,
    pub step: Value,
}

/// An iterator over an object (Library Reference, "Iterator Types").
#[derive(Clone, Copy, Debug)]
pub struct Cursor {
    /// What it goes over. Once it has come to the end it goes over nothing.
    pub over: Option<ObjId>,
    /// The place of the next item: of a text in bytes, of all else in items.
    pub place: u64,
    /// How many entries a dictionary, set or view had at the start.
    pub count: u32,
}

/// What a view of a dictionary shows of its entries.
#[derive(Clone, Copy, Debug)]
pub enum Part {
    Keys,
    Values,
    Items,
}

/// A view of a dictionary (Library Reference, "Dictionary view objects").
#[derive(Clone, Copy, Debug)]
pub struct DictView {
    pub part: Part,
    pub dict: ObjId,
}

/// A function of a script or of the prelude (Language Reference 8.7).
#[derive(Debug, Drop)]
pub struct Function {
    pub block: BlockId,
    /// Whether the block is one of the prelude's.
    pub hidden: bool,
    /// The default values, each behind the name of its parameter.
    pub defaults: Seq<Binding>,
    /// The numbers of the cells of its free names.
    pub cells: Seq<u32>,
}

/// A function with the object that it is a method of (Language Reference 3.2.8.2).
#[derive(Clone, Copy, Debug)]
pub struct Method {
    pub function: Value,
    pub receiver: Value,
}

/// A function that is built in, by its number, or a method of a value.
#[derive(Clone, Copy, Debug)]
pub struct Builtin {
    pub number: u32,
    pub receiver: Option<Value>,
}

/// A class, of a script or built in (Language Reference 8.8).
#[derive(Drop)]
pub struct Class {
    pub name: Text,
    pub base: Option<ObjId>,
    /// Whether a script's class statement made it.
    pub scripted: bool,
    pub names: Dict,
}

/// An instance of a class.
#[derive(Drop)]
pub struct Instance {
    pub class: ObjId,
    pub names: Dict,
}

/// A visible frame that an exception came through, and the line on which it stood there.
#[derive(Clone, Copy, Debug)]
pub struct TraceEntry {
    pub frame: FrameNo,
    pub block: BlockId,
    pub line: Line,
}

/// An exception (Language Reference 7.8; Library Reference, "Exceptions").
#[derive(Drop)]
pub struct Error {
    pub class: ObjId,
    pub args: Seq<Value>,
    pub cause: Option<ObjId>,
    pub context: Option<ObjId>,
    /// Whether `from` at its `raise` hides the context.
    pub hides_context: bool,
    pub trace: Seq<TraceEntry>,
    pub names: Dict,
}

/// A module that is built in.
#[derive(Clone, Copy, Debug)]
pub enum Module {
    Sys,
    Monitoring,
    /// The names of events in `sys.monitoring`.
    Events,
}

/// What `super` gives (Library Reference, `super`).
#[derive(Clone, Copy, Debug)]
pub struct Super {
    pub class: ObjId,
    pub receiver: Value,
}

/// An object of the heap (Language Reference 3.2).
#[derive(Drop)]
pub enum Object {
    Str(Str),
    List(Seq<Value>),
    Tuple(Seq<Value>),
    Dict(Dict),
    /// A set, whose entries have each item as its key and as the value that was first written.
    Set(Dict),
    Range(Range),
    Slice(Slice),
    Cursor(Cursor),
    View(DictView),
    Function(Function),
    Method(Method),
    Builtin(Builtin),
    Class(Class),
    Instance(Instance),
    Error(Error),
    /// A generator, by its number.
    Generator(u32),
    Frame(FrameNo),
    /// The code of a block.
    CodeRef { block: BlockId, hidden: bool },
    Module(Module),
    Super(Super),
}
