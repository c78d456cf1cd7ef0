ghost use Rattle.std.specs.Prelude.{◌≡◌, ◌∷◌, [], replicate, true, Some};
ghost use Rattle.pt_instr.specs.declared.kinds.Kind.TheVariants.{Value};
ghost use Rattle.pt_instr.specs.Effects.{taking, giving, leaving};

use crate::kinds::{Kind, Kinds, one};

/// What an instruction takes from the stack and gives.
#[derive(Debug, Drop)]
pub struct Effect {
    pub takes: Kinds,
    /// How many slots below those that it takes a value has to stand.
    pub above: Option<u32>,
    /// What it gives where it goes on behind itself, if it may.
    pub gives: Option<Kinds>,
    /// What it gives at its target, if it may go there.
    pub aside: Option<Kinds>,
    /// It may leave the place for a handler or the caller.
    pub leaves: bool,
    /// It may stay at its place with all that it takes.
    pub again: bool,
    /// The lower of the two that it takes may be an iterator, which is then the upper that it gives.
    pub swaps: bool,
    /// How many of the lowest slots that it takes stay the same slots where it gives them.
    pub keeps: u32,
}

impl Effect {
    pub(crate) fn aside(self, kinds: Kinds) -> Effect
        ensures { result ≡ record self { aside = Some kinds } }
    {
        Effect {
            aside: Some(kinds),
            ..self
        }
    }

    pub(crate) fn above(self, count: u32) -> Effect
        ensures { result ≡ record self { above = Some count } }
    {
        Effect {
            above: Some(count),
            ..self
        }
    }

    pub(crate) fn keeping(self, count: u32) -> Effect
        ensures { result ≡ record self { keeps = count } }
    {
        Effect {
            keeps: count,
            ..self
        }
    }

    pub(crate) fn swapping(self) -> Effect
        ensures { result ≡ record self { swaps = true } }
    {
        Effect {
            swaps: true,
            ..self
        }
    }

    pub(crate) fn or_leaving(self) -> Effect
        ensures { result ≡ record self { leaves = true } }
    {
        Effect {
            leaves: true,
            ..self
        }
    }

    pub(crate) fn or_again(self) -> Effect
        ensures { result ≡ record self { again = true } }
    {
        Effect {
            again: true,
            ..self
        }
    }
}

pub fn taking(takes: Kinds) -> Effect
    ensures { result ≡ taking takes }
{
    Effect {
        takes,
        above: None,
        gives: None,
        aside: None,
        leaves: false,
        again: false,
        swaps: false,
        keeps: 0,
    }
}

pub fn slots(takes: Kinds, gives: Kinds) -> Effect
    ensures { result ≡ giving takes gives }
{
    Effect {
        gives: Some(gives),
        ..taking(takes)
    }
}

pub fn values(takes: u32, gives: u32) -> Effect
    ensures { result ≡ giving (replicate takes Value) (replicate gives Value) }
{
    slots(one(takes, Kind::Value), one(gives, Kind::Value))
}

pub fn leaving(takes: Kinds) -> Effect
    ensures { result ≡ leaving (taking takes) }
{
    taking(takes).or_leaving()
}
