use pt_base::{Line, Text};

/// What a region of a script is (Language Reference 4.1, 6.2.4).
#[derive(Clone, Copy, Debug, PartialEq, Eq)]
pub enum Kind {
    Module,
    /// A function, a lambda or a generator expression.
    Function,
    Class,
    /// A list, set or dictionary comprehension, which is no block.
    Comprehension,
}

/// A part of a script that has names of its own: a block, or a comprehension.
#[derive(Clone, Copy, Debug, PartialEq, Eq)]
pub struct Region {
    pub kind: Kind,
    /// The region in which it stands. The module stands in itself.
    pub around: usize,
    /// The block to which it belongs: itself, or that in which a comprehension stands.
    pub home: usize,
}

/// What a script does with a name (Language Reference 4.2.1).
#[derive(Clone, Copy, Debug, PartialEq, Eq)]
pub enum Role {
    Read,
    Bind,
    /// Binds it as a parameter.
    Parameter,
    /// `global` (Language Reference 7.12)
    Global,
    /// `nonlocal` (Language Reference 7.13)
    Nonlocal,
    /// No name: a statement or a `yield` outside its place.
    Misplaced,
}

/// A place of a script that tells of a name.
#[derive(Debug, Drop)]
pub struct Mention {
    pub role: Role,
    pub region: usize,
    pub name: Text,
    pub line: Line,
}

/// Where a part of the tree stands.
#[derive(Clone, Copy, Debug, PartialEq, Eq)]
pub struct Context {
    pub region: usize,
    /// The block of the region.
    pub home: usize,
    /// `return` and `yield` may stand here.
    pub may_give: bool,
    pub in_loop: bool,
}

/// Whether a region binds a name, and how it declares it.
#[derive(Clone, Copy, Debug, PartialEq, Eq)]
pub struct Facts {
    pub binds: bool,
    pub global: bool,
    pub nonlocal: bool,
}

/// What a region says of a name that is looked for from inside.
#[derive(Clone, Copy, Debug, PartialEq, Eq)]
pub enum Verdict {
    /// It is a name of this region.
    Own,
    /// It is a name of no region around.
    Nobody,
    /// The region at this place says more.
    Outwards(usize),
}

/// What was said of a name in a region before.
#[derive(Clone, Copy, Debug, PartialEq, Eq)]
pub struct Earlier {
    pub parameter: bool,
    pub global: bool,
    pub nonlocal: bool,
    /// It was read or bound.
    pub used: bool,
}
