//! List, set and dictionary comprehensions (Language Reference 6.2.4).

ghost use Rattle.std.specs.Prelude.{◌≡◌};
ghost use Rattle.pt_expr_forms.specs.Loops.{addition as addition_of, empty_instr};

use pt_assembler::Label;
use pt_base::{ActNo, Seq};
use pt_instr::Instr;

/// What a comprehension builds.
#[derive(Clone, Copy, Debug, PartialEq, Eq)]
pub enum Built {
    List,
    Set,
    Dict,
}

impl Built {
    /// Gives one without items.
    pub fn empty(self) -> Instr
        ensures { result ≡ empty_instr self }
    {
        match self {
            Built::List => Instr::List(0),
            Built::Set => Instr::Set(0),
            Built::Dict => Instr::Dict(0),
        }
    }

    /// Adds an item, so many slots below.
    pub fn addition(self, depth: u32) -> Instr
        ensures { result ≡ addition_of self depth }
    {
        match self {
            Built::List => Instr::ListAdd(depth),
            Built::Set => Instr::SetAdd(depth),
            Built::Dict => Instr::DictAdd(depth),
        }
    }
}

/// A comprehension behind the first turn of its first clause.
#[derive(Drop)]
pub struct Begun {
    pub end: Label,
    /// Where the next item is taken.
    pub head: Label,
    /// The comprehensions around what stands in it.
    pub within: Seq<ActNo>,
}

/// The innermost loop of a comprehension: where its next item is taken, and how many iterators lie
/// above what is built.
#[derive(Clone, Copy, Debug, PartialEq, Eq)]
pub struct Innermost {
    pub head: Label,
    pub loops: u32,
}
