//! The instructions of the machine: their bytes, their names, and what they take and give.
#![tactic(auto)]

mod code;
mod effects;
mod kinds;
mod names;
mod reading;
mod rows;
mod table;
mod writing;

pub use code::{Operands, operand_numbers};
pub use effects::Effect;
pub use kinds::{Kind, Kinds, Run};
pub use names::name;
use pt_base::{BinOp, BlockId, CompareOp, Pc, UnOp};
pub use reading::{decode, one_reading};
pub use rows::effect;
pub use writing::encode;

/// The number of a constant of the code, from 0.
#[derive(Clone, Copy, Debug, PartialEq, Eq)]
pub struct ConstNo(pub u32);

/// The number of a text of the code, from 0.
#[derive(Clone, Copy, Debug, PartialEq, Eq)]
pub struct TextNo(pub u32);

/// The number of a list of texts of the code, from 0.
#[derive(Clone, Copy, Debug, PartialEq, Eq)]
pub struct ListNo(pub u32);

/// The number of a local name of a block, or of a cell or free name, the cell names first.
#[derive(Clone, Copy, Debug, PartialEq, Eq)]
pub struct SlotNo(pub u32);

/// How the value of a formatted field is made into a text (Language Reference 2.4.3).
#[derive(Clone, Copy, Debug, PartialEq, Eq)]
pub enum Conversion {
    /// As it is.
    Plain,
    /// `!s`
    Str,
    /// `!r`
    Repr,
}

/// An instruction. It takes slots from the top of the stack and gives others in their place, the
/// top last.
#[derive(Clone, Copy, Debug, PartialEq, Eq)]
pub enum Instr {
    /// Does nothing.
    Nop,
    /// Gives a constant.
    Const(ConstNo),
    /// Gives the value of a local name.
    Local(SlotNo),
    /// Takes a value and binds a local name to it.
    SetLocal(SlotNo),
    /// Unbinds a local name.
    DelLocal(SlotNo),
    /// Gives the value of a name that is kept in a cell.
    Cell(SlotNo),
    /// Takes a value and binds a name that is kept in a cell to it.
    SetCell(SlotNo),
    /// Unbinds a name that is kept in a cell.
    DelCell(SlotNo),
    /// Gives the value of a global name.
    Global(TextNo),
    /// Takes a value and binds a global name to it.
    SetGlobal(TextNo),
    /// Unbinds a global name.
    DelGlobal(TextNo),
    /// Gives the value of a name of a module or class block.
    Name(TextNo),
    /// Takes a value and binds a name of a module or class block to it.
    SetName(TextNo),
    /// Unbinds a name of a module or class block.
    DelName(TextNo),
    /// Gives a cell itself.
    PushCell(SlotNo),
    /// Takes a value and drops it.
    Pop,
    /// Gives the value on top a second time.
    Copy,
    /// Gives the two values on top a second time, in their order.
    Copy2,
    /// Changes the two slots on top for each other. The lower one may be an iterator.
    Swap,
    /// Moves the value on top below the next two.
    Rot3,
    /// Takes an object and gives an attribute of it.
    Attr(TextNo),
    /// Takes a value and an object, and sets an attribute of the object.
    SetAttr(TextNo),
    /// Takes an object and deletes an attribute of it.
    DelAttr(TextNo),
    /// Takes a container and an index, and gives the item.
    Item,
    /// Takes a value, a container and an index, and sets the item.
    SetItem,
    /// Takes a container and an index, and deletes the item.
    DelItem,
    /// Takes start, stop and step, and gives a slice object.
    Slice,
    /// Takes an operand and gives the result.
    Unary(UnOp),
    /// Takes a value and gives whether it is false.
    Not,
    /// Takes two operands and gives their result.
    Binary(BinOp),
    /// Takes two operands and gives the result of an augmented assignment.
    InPlace(BinOp),
    /// Takes two operands and gives how they compare.
    Compare(CompareOp),
    /// Takes so many items and gives a tuple of them.
    Tuple(u32),
    /// Takes so many items and gives a list of them.
    List(u32),
    /// Takes so many items and gives a set of them.
    Set(u32),
    /// Takes so many keys, each with its value behind it, and gives a dictionary of them.
    Dict(u32),
    /// Takes an item and adds it to the list that stands so many slots below.
    ListAdd(u32),
    /// Takes an item and adds it to the set that stands so many slots below.
    SetAdd(u32),
    /// Takes a key and a value, and adds them to the dictionary that stands so many slots below the key.
    DictAdd(u32),
    /// Takes a value and the text of its format, or None where there is none, and gives the formatted text.
    Format(Conversion),
    /// Takes so many texts and gives them joined.
    Join(u32),
    /// Takes an iterable and gives its items, of which it must have so many, the first on top.
    Unpack(u32),
    /// Takes an iterable and gives so many first items, a list, and so many last ones, the first on top.
    UnpackStar(u32, u32),
    /// Takes an iterable and gives a tuple of its items.
    Spread,
    /// Takes a mapping and gives a dictionary of its items.
    SpreadMap,
    /// Takes what is called and so many arguments behind it, and gives the result.
    Call(u32),
    /// The same, where the last arguments have the names of a list.
    CallKw(u32, ListNo),
    /// The same, where a list says of each argument whether it is spread or has a name.
    CallSpread(u32, ListNo),
    /// Takes the defaults of the listed parameters and a cell for each free name of the block, and gives a function.
    MakeFunction(BlockId, u32, ListNo),
    /// Takes a base, or None, and a cell for each free name of the block, and gives a class.
    MakeClass(BlockId),
    /// Takes an iterator and a cell for each free name of the block, and gives a generator.
    MakeGenerator(BlockId),
    /// Takes an iterable and gives an iterator over it.
    Iter,
    /// Gives the next item above its iterator, or drops the iterator and goes to the place.
    Next(Pc),
    /// Goes to the place.
    Jump(Pc),
    /// Takes a value, and goes to the place if it is true.
    JumpIf(Pc),
    /// Takes a value, and goes to the place if it is false.
    JumpUnless(Pc),
    /// Goes to the place with the value on top if it is true, and else drops it.
    JumpIfKeep(Pc),
    /// Goes to the place with the value on top if it is false, and else drops it.
    JumpUnlessKeep(Pc),
    /// Takes a value and returns it.
    Return,
    /// Takes a value and yields it, and gives what is sent.
    Yield,
    /// Takes an iterator and a value to send to it, and yields its next item, or gives its result once it has ended.
    Delegate,
    /// Takes an exception and raises it.
    Raise,
    /// Takes an exception and its cause, and raises the exception.
    RaiseFrom,
    /// Raises the active exception again.
    RaiseAgain,
    /// Takes what a handler is for, and gives whether the exception below is of it.
    Match,
    /// Gives the value of the exception on top, whose slot is made anew.
    Caught,
    /// Takes an exception, which is handled.
    EndHandler,
    /// Takes an exception and raises it on.
    Rethrow,
    /// Takes a context manager, and gives its exit and the value of its entry.
    Enter,
    /// Gives a normal completion.
    Normal,
    /// Takes an exit and a completion, and gives the completion that is left when the exit was called.
    Exit,
    /// Takes a completion and goes on with it.
    EndFinally,
    /// Leaves to the place.
    Leave(Pc),
    /// Gives a module.
    Import(TextNo),
    /// Gives an attribute of the module on top, above it.
    ImportName(TextNo),
    /// Raises an AssertionError, of a message that it takes where it has one.
    AssertFail(bool),
    /// Takes two tuples and gives them joined.
    TupleJoin,
    /// Takes two dictionaries and gives one of both, with the second's value for a key of both.
    DictMerge,
    /// Takes a class and an instance, and gives an object that starts above the class.
    Super,
    /// Unbinds a local name.
    FreshLocal(SlotNo),
    /// Gives a slot a new unbound cell.
    FreshCell(SlotNo),
}
