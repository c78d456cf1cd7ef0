use crate::{Function, MethodName};
use pt_base::{BinOp, CompareOp, UnOp};
use pt_tree::Conversion;

/// An operation on values. Its operands stand in the order in which they are evaluated.
#[derive(Clone, Copy, Debug, PartialEq, Eq)]
pub enum Op {
    /// Whether a value is true (Library Reference, "Truth Value Testing").
    Truth,
    /// `not a` (Language Reference 6.11).
    Not,
    /// `+a`, `-a` and `~a` (Language Reference 6.6).
    Unary(UnOp),
    /// An arithmetic operator (Language Reference 6.5, 6.7 to 6.9).
    Binary(BinOp),
    /// The same in an augmented assignment (Language Reference 7.2.1).
    InPlace(BinOp),
    /// A comparison (Language Reference 6.10).
    Compare(CompareOp),
    /// `(a, b)`, of its items (Language Reference 6.15).
    Tuple,
    /// `[a, b]`, of its items (Language Reference 6.2.5).
    List,
    /// `{a, b}`, of its items (Language Reference 6.2.6).
    Set,
    /// `{a: b}`, of its keys and values in turn (Language Reference 6.2.7).
    Dict,
    /// `a[b]` (Language Reference 6.3.2).
    Item,
    /// `a[b] = c`, of the value, the container and the index (Language Reference 7.2).
    SetItem,
    /// `del a[b]` (Language Reference 7.5).
    DelItem,
    /// A slice of its start, stop and step (Language Reference 6.3.3).
    Slice,
    /// The text of a replacement field, of a value and its spec, or None where it has none
    /// (Language Reference 2.4.3).
    Format(Option<Conversion>),
    /// The text of an f-string, of those of its parts (Language Reference 2.4.3).
    Join,
    /// The iterator over a value (Language Reference 8.3).
    Iter,
    /// The next item of an iterator (Language Reference 8.3).
    Next,
    /// So many items of a value (Language Reference 7.2).
    Unpack { count: u32 },
    /// The same where a list takes the items between those at the ends (Language Reference 7.2).
    UnpackStar { before: u32, after: u32 },
    /// A list gets an item more (Language Reference 6.2.4).
    ListAdd,
    /// A set gets an item more (Language Reference 6.2.4).
    SetAdd,
    /// A dictionary gets a value behind a key (Language Reference 6.2.4).
    DictAdd,
    /// The tuple of the arguments that `*a` stands for (Language Reference 6.3.4).
    SpreadOut,
    /// The dictionary of the arguments that `**a` stands for (Language Reference 6.3.4).
    SpreadNamed,
    /// One tuple behind another.
    TupleJoin,
    /// The entries of a dictionary, and then those of another.
    DictMerge,
    /// A call of a builtin function or class.
    Call(Function),
    /// A call of a method of a builtin value, of the value and then the arguments.
    CallMethod(MethodName),
}
