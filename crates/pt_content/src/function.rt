ghost use Rattle.std.specs.Prelude.{◌≡◌};
ghost use Rattle.pt_content.specs.Functions.{of_class, of_function};

use pt_base::ObjId;

/// A builtin function, or a builtin class that is called (Library Reference, "Built-in Functions").
#[derive(Clone, Copy, Debug, PartialEq, Eq)]
pub enum Function {
    /// `print`, of the values of `sep` and `end`, None where they aren't given, and then of what
    /// is printed.
    Print,
    Len,
    Repr,
    Isinstance,
    Issubclass,
    Iter,
    Next,
    Abs,
    Divmod,
    Ord,
    Chr,
    Hasattr,
    Getattr,
    Setattr,
    Callable,
    /// `sys.exit`.
    Exit,
    Object,
    Type,
    Int,
    Bool,
    Str,
    Range,
    Super,
    /// A tuple of the items of a list. This and those that follow are for functions written in
    /// Python that builtins ask.
    MakeTuple,
    /// A new set.
    MakeSet,
    /// Whether a value is of the builtin class of a name.
    IsOf,
    /// The texts of a list with a text between them.
    JoinItems,
    /// The items of a list in the order of their keys, or turned round.
    SortItems,
    /// A list gets the items of another.
    Refill,
    /// Whether a value is an instance of a script's class that has a name, or whose bases have it.
    HasName,
    /// The method of that name, bound to the value.
    GetName,
    /// Raises what an operator says of operands that it doesn't take.
    Refuse,
    /// Whether a value is an exception.
    IsError,
    /// Whether a value is a container from which an instance of a script's class is reached.
    HoldsInstance,
    /// The `repr` of a value without a method of its own.
    PlainRepr,
    /// What stands for a container inside itself.
    Dots,
    /// The items of a container, or its keys and values in turn, as a list.
    Parts,
    /// The text of a container from those of its parts.
    Wrap,
    /// A text that `__str__` or `__repr__` gave.
    TextGiven,
    /// A truth value that `__bool__` gave.
    TruthGiven,
    /// A length that `__len__` gave.
    LengthGiven,
    /// Prints a text.
    Write,
}

/// The functions of values, by their numbers.
pub const FUNCTIONS: [Function; 15] = [
    Function::Print,
    Function::Len,
    Function::Repr,
    Function::Isinstance,
    Function::Issubclass,
    Function::Iter,
    Function::Next,
    Function::Abs,
    Function::Divmod,
    Function::Ord,
    Function::Chr,
    Function::Hasattr,
    Function::Getattr,
    Function::Setattr,
    Function::Callable,
];

/// The functions that those written in Python ask, by their numbers behind the first of them.
pub const HIDDEN_FUNCTIONS: [Function; 19] = [
    Function::MakeTuple,
    Function::MakeSet,
    Function::IsOf,
    Function::JoinItems,
    Function::SortItems,
    Function::Refill,
    Function::HasName,
    Function::GetName,
    Function::Refuse,
    Function::IsError,
    Function::HoldsInstance,
    Function::PlainRepr,
    Function::Dots,
    Function::Parts,
    Function::Wrap,
    Function::TextGiven,
    Function::TruthGiven,
    Function::LengthGiven,
    Function::Write,
];

/// The number of the first of these, which stand behind those of `sys`.
pub const FIRST_HIDDEN: u32 = 28;

/// The number of `sys.exit`, which stands behind those of functions of values.
pub const EXIT: u32 = 17;

/// The function of a number, if it is an operation on values. Other functions of `sys` are none.
pub fn of_function(number: u32) -> Option<Function>
    ensures { result ≡ of_function number }
{
    if number == EXIT {
        return Some(Function::Exit);
    }
    if number >= FIRST_HIDDEN {
        return HIDDEN_FUNCTIONS
            .get((number - FIRST_HIDDEN) as usize)
            .copied();
    }
    FUNCTIONS.get(number as usize).copied()
}

/// What a call of the builtin class at a place does, if it is an operation on values. Calls of
/// lists, tuples, sets, dictionaries and exceptions are none.
pub fn of_class(class: ObjId) -> Option<Function>
    ensures { result ≡ of_class class }
{
    match class.0 {
        0 => Some(Function::Object),
        1 => Some(Function::Type),
        2 => Some(Function::Int),
        3 => Some(Function::Bool),
        4 => Some(Function::Str),
        9 => Some(Function::Range),
        21 => Some(Function::Super),
        _ => None,
    }
}
