use pt_base::{Memory, Seq, Text};
use pt_heap::{Binding, Value};

/// The parameters of a function (Language Reference 8.7).
#[derive(Debug, Drop)]
pub struct Params {
    /// Those that a place or a name fills.
    pub plain: Seq<Text>,
    /// Those that a name alone fills.
    pub only: Seq<Text>,
    /// Whether `*NAME` takes the arguments without a name that are left.
    pub star: bool,
    /// Whether `**NAME` takes the arguments with a name that are left.
    pub stars: bool,
    pub defaults: Seq<Binding>,
}

/// The arguments of a call (Language Reference 6.3.4).
#[derive(Debug, Drop)]
pub struct Args {
    pub plain: Seq<Value>,
    pub named: Seq<Binding>,
}

/// What the names of a block start with.
#[derive(Debug, Drop)]
pub struct Locals {
    /// The value of each local name, the parameters first, or None where it is unbound.
    pub values: Seq<Option<Value>>,
    /// The arguments that `*NAME` takes.
    pub star: Seq<Value>,
    /// The arguments that `**NAME` takes.
    pub stars: Seq<Binding>,
    /// The numbers of the cells, those of the cell names first and then those of the free names.
    pub cells: Seq<u32>,
}

/// Why arguments don't fit parameters.
#[derive(Debug, Drop)]
pub enum BindErr {
    /// A parameter has neither an argument nor a default.
    Missing { name: Text },
    /// So many arguments without a name were given, more than there are parameters for them.
    TooMany { given: usize },
    /// No parameter has this name.
    Unexpected { name: Text },
    /// A parameter is given two arguments, or two arguments have one name.
    Double { name: Text },
    Memory,
}

impl From<Memory> for BindErr {
    ghost use Rattle.std.specs.Prelude.{◌≡◌};
    ghost use Rattle.pt_bind.specs.declared.arguments.BindErr.TheVariants.{Memory as out_of_memory};

    ghost from_gives = { λ _ e. e ≡ out_of_memory };

    fn from(_: Memory) -> Self {
        BindErr::Memory
    }
}
