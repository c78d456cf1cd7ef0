//! What refuses a block at a place.
ghost use Rattle.std.specs.Prelude.{◌≡◌, option_map};
ghost use Rattle.pt_refusals.specs.Verdicts.{agreeing, misfit_of, refusal_at};

use crate::failures::{Failures, KindFailures, LeaveFailures, Refusal};

/// What refuses a block at a place up to which numbers of slots agree, and cuts.
fn agreeing(place: usize, kinds: &KindFailures, leaves: &LeaveFailures) -> Option<Refusal>
    ensures { option_map misfit_of result ≡ agreeing place kinds.now leaves.now }
{
    if leaves.lacks {
        Some(Refusal::Stack(place))
    } else if kinds.clash || leaves.clash {
        Some(Refusal::Kind(place))
    } else if kinds.strays {
        Some(Refusal::Target(place))
    } else {
        None
    }
}

/// What refuses a block at a place, of how it fails up to it: two lengths, a handler row, too few
/// slots, another kind, a target, in this order. Where nothing fails it is none.
pub fn refusal_at(place: usize, failures: &Failures) -> Option<Refusal>
    ensures { option_map misfit_of result ≡ refusal_at place failures.now }
{
    match failures {
        Failures::Meet => Some(Refusal::Stack(place)),
        Failures::TooDeep { row, cuts } => Some(Refusal::Table(cuts.unwrap_or(*row))),
        Failures::TooFew { cuts: None } => Some(Refusal::Stack(place)),
        Failures::TooFew { cuts: Some(row) } => Some(Refusal::Table(*row)),
        Failures::Cut(row) => Some(Refusal::Table(*row)),
        Failures::Agree { kinds, leaves } => agreeing(place, kinds, leaves),
    }
}
