use pt_base::{Line, Text};

/// What a name means in a block (Language Reference 4.2.2).
#[derive(Clone, Copy, Debug, PartialEq, Eq)]
pub enum Scope {
    /// A name of the function that no block in it reads.
    Local,
    /// A name of the function that some block in it reads too.
    Cell,
    /// A name of a function around the block.
    Free,
    /// A name of the module, or a builtin.
    Global,
    /// A name of the class.
    Class,
}

/// Why the names of a script have no scopes.
#[derive(Debug, Drop)]
pub enum ScopeErr {
    /// `nonlocal` of a name that no function around the block binds.
    NoBinding { name: Text, line: Line },
    /// Two parameters of one name, or a declaration beside a parameter or the other declaration.
    Twice { name: Text, line: Line },
    /// A declaration of a name that the block has used already.
    LateDecl { name: Text, line: Line },
    /// `return`, `yield`, `break` or `continue` outside its place.
    Outside { line: Line },
}
