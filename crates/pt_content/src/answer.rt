use pt_base::{BinOp, CompareOp, ObjId, Seq, Text, What};
use pt_heap::Value;

/// An operator whose method an instance of a script's class is asked for (Language Reference 3.3.1,
/// 3.3.8).
#[derive(Clone, Copy, Debug, PartialEq, Eq)]
pub enum Operator {
    Binary(BinOp),
    Compare(CompareOp),
}

/// A function that is written in Python, and is asked where an operand has methods of a script.
#[derive(Clone, Copy, Debug, PartialEq, Eq)]
pub enum Helper {
    /// Asks `__bool__` or `__len__` (Language Reference 3.3.1).
    TruthOf,
    /// Asks the method of an operator, and its reflected one (Language Reference 3.3.1, 3.3.8).
    BinaryOf(Operator),
    /// Asks `__str__` or `__repr__` of each argument, and prints what they give.
    PrintOf,
    StrOf,
    ReprOf,
    LenOf,
    IterOf,
    NextOf,
    /// `next` with a default.
    NextOrOf,
    /// Whether a value is among those of a container.
    InOf,
    /// Whether two lists or two tuples are equal.
    SameOf,
    /// Whether two dictionaries are equal.
    PairsOf,
    /// The first items of an iterable, one more than so many at most.
    TakeOf(u32),
    ListOf,
    TupleOf,
    SetOf,
    DictOf,
    ExtendOf,
    UpdateOf,
    JoinOf,
    SortOf,
}

/// What an operation answers.
#[derive(Debug, Drop)]
pub enum PrimAns {
    Value(Value),
    /// The values of an unpacking, the first one first.
    Values(Seq<Value>),
    /// An iterator has no further item.
    End,
    /// An exception of this class arises, with this argument.
    Raise {
        class: ObjId,
        arg: Option<Value>,
    },
    /// A helper is to be asked instead, with these operands. Where it is inverted, the answer is
    /// that it isn't so.
    Help {
        helper: Helper,
        operands: Seq<Value>,
        inverted: bool,
    },
    /// The text is to be printed, and the value is None.
    Print {
        text: Text,
    },
    /// The run leaves the profile of the language.
    Outside {
        what: What,
    },
}
