use crate::{Helper, PrimAns};
use pt_base::{ObjId, Seq, Text, What};
use pt_heap::{Builtin, Cursor, Dict, DictView, Method, Range, Slice, Value};

/// An object that an operation makes. It is no function of a script, no class and no instance of one.
#[derive(Drop)]
pub enum NewObject {
    Text(Text),
    List(Seq<Value>),
    Tuple(Seq<Value>),
    Dict(Dict),
    Set(Dict),
    Range(Range),
    Slice(Slice),
    Cursor(Cursor),
    View(DictView),
    Method(Method),
    /// A method of builtin values.
    Builtin(Builtin),
}

/// What an object that operations change holds.
#[derive(Drop)]
pub enum Mutable {
    List(Seq<Value>),
    Dict(Dict),
    Set(Dict),
    Cursor(Cursor),
}

/// What the object at a place holds from now on. One of another kind stays as it is.
#[derive(Drop)]
pub struct Replacement {
    pub id: ObjId,
    pub object: Mutable,
}

/// What an operation changes in the heap: one object may hold something else, and objects are put
/// behind the others.
#[derive(Drop)]
pub struct Change {
    pub replacement: Option<Replacement>,
    pub objects: Seq<NewObject>,
}

/// What an operation answers, with new objects that aren't in the heap yet.
#[derive(Drop)]
pub enum Content {
    Value(Value),
    /// A new object is the value.
    New(NewObject),
    /// New objects are the values of an unpacking.
    NewValues(Seq<NewObject>),
    /// An exception of this class with this text arises.
    Raise { class: ObjId, text: Text },
    /// A helper is to be asked. Where it is inverted, the answer is that it isn't so.
    Help { helper: Helper, inverted: bool },
    Print(Text),
    Outside(What),
    /// An answer behind a change. New objects stand behind those that the heap has.
    Changed { change: Change, answer: PrimAns },
}
