use pt_base::Line;

/// What an act does: the least step of a script that can be seen (Language Reference 6 to 8).
#[derive(Clone, Copy, Debug, PartialEq, Eq)]
pub enum ActKind {
    /// Gives a constant.
    Const,
    /// Gives the value of a name.
    Load,
    /// Makes a tuple, list, set or dictionary.
    Build,
    /// Formats the value of a replacement field.
    Format,
    /// Joins the parts of an f-string.
    Join,
    /// Gets an attribute.
    Attr,
    /// Gets an item.
    Item,
    /// Makes a slice.
    Slice,
    /// Applies `+`, `-` or `~` to one operand.
    Unary,
    /// Applies `not`.
    Not,
    /// Applies an operator to two operands.
    Binary,
    /// Compares two operands.
    Compare,
    /// Decides on the truth of a value.
    Branch,
    /// Unpacks an argument behind `*` or `**`.
    Spread,
    /// Calls.
    Call,
    /// Makes a function.
    Function,
    /// Gets an iterator.
    Iter,
    /// Gets the next item of an iterator.
    Next,
    /// Adds an item to what a comprehension makes.
    Add,
    /// Makes the generator of a generator expression.
    Generator,
    /// Yields a value.
    Yield,
    /// Yields what another generator yields.
    Delegate,
    /// Binds a name.
    Store,
    /// Sets an attribute.
    SetAttr,
    /// Sets an item.
    SetItem,
    /// Takes the items of a value for several targets.
    Unpack,
    /// Applies the operator of an augmented assignment.
    InPlace,
    /// Unbinds a name.
    Delete,
    /// Deletes an attribute.
    DelAttr,
    /// Deletes an item.
    DelItem,
    /// Does nothing.
    Pass,
    /// Leaves a loop.
    Break,
    /// Goes on with a loop's next turn.
    Continue,
    /// Ends a function with a value.
    Return,
    /// Raises an exception.
    Raise,
    /// Imports a module.
    Import,
    /// Gets a name of a module.
    ImportName,
    /// Begins a `try`.
    Try,
    /// Asks whether a handler takes an exception.
    Match,
    /// Enters the context of a `with`.
    Enter,
    /// Leaves the context of a `with`.
    Exit,
    /// Makes a class.
    Class,
    /// Drops a value.
    Discard,
}

/// An act of a block: what it does, its line, and whether a loop tests again with it (PEP 626).
#[derive(Clone, Copy, Debug, PartialEq, Eq)]
pub struct ActRow {
    pub kind: ActKind,
    pub line: Line,
    pub again: bool,
}
