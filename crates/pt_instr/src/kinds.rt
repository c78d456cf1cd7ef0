ghost use Rattle.std.specs.Prelude.{◌≡◌, ◌∷◌, ◌++◌, [], replicate};
ghost use Rattle.pt_instr.specs.declared.kinds.Kind.TheVariants.{Value};
ghost use Rattle.std.specs.List.{flat_map};
ghost use Rattle.pt_instr.specs.Runs.{kinds_of};

use std::marker::Model;

/// What a slot holds.
#[derive(Clone, Copy, Debug, PartialEq, Eq)]
pub enum Kind {
    Value,
    /// A cell that holds the value of a name.
    Cell,
    Iter,
    /// An exception that is being handled.
    Exc,
    /// A completion that waits.
    Pending,
    /// The exit of a context manager.
    With,
}

/// So many slots of one kind.
#[derive(Clone, Copy, Debug, PartialEq, Eq)]
pub struct Run {
    pub kind: Kind,
    pub count: u32,
}

const NO_SLOT: Run = Run {
    kind: Kind::Value,
    count: 0,
};

/// Kinds of slots, the top last. They are kept as counts, so that a great many cost no more than
/// a few.
#[derive(Debug, Drop)]
pub struct Kinds {
    lowest: Run,
    middle: Run,
    highest: Run,
}

impl Model for Kinds {
    ghost use Rattle.std.specs.Prelude.{List, ◌++◌};
    ghost use Rattle.pt_instr.specs.declared.kinds.Kind.{Kind};
    ghost use Rattle.pt_instr.specs.Runs.{kinds_of};

    ghost Value = { List Kind };

    ghost view = { λ k. kinds_of k.lowest ++ (kinds_of k.middle ++ kinds_of k.highest) };
}

impl Kinds {
    /// The runs that make them up, the top last. A run may be empty.
    pub fn runs(&self) -> [Run; 3]
        ensures { self.now ≡ flat_map kinds_of result }
    {
        [self.lowest, self.middle, self.highest]
    }
}

pub fn none() -> Kinds
    ensures { result ≡ [] }
{
    one(0, Kind::Value)
}

pub fn one(count: u32, kind: Kind) -> Kinds
    ensures { result ≡ replicate count kind }
{
    Kinds {
        lowest: NO_SLOT,
        middle: NO_SLOT,
        highest: Run { kind, count },
    }
}

pub fn two(low_count: u32, low: Kind, count: u32, kind: Kind) -> Kinds
    ensures { result ≡ replicate low_count low ++ replicate count kind }
{
    Kinds {
        lowest: NO_SLOT,
        middle: Run {
            kind: low,
            count: low_count,
        },
        highest: Run { kind, count },
    }
}

/// So many values at each end of a value.
pub fn around(low_count: u32, high_count: u32) -> Kinds
    ensures { result ≡ replicate low_count Value ++ Value ∷ replicate high_count Value }
{
    Kinds {
        lowest: values_run(low_count),
        middle: values_run(1),
        highest: values_run(high_count),
    }
}

fn values_run(count: u32) -> Run
    ensures { result ≡ record { kind = Value; count = count } }
{
    Run {
        kind: Kind::Value,
        count,
    }
}
