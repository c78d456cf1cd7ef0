//! Where a completion goes on that leaves a place of a block, by the handler rows that are known by
//! place (Language Reference 8.4, 7.6, 7.9, 7.10).
#![tactic(auto)]

ghost use Rattle.std.specs.Prelude.{◌≡◌, ◌&&◌, find};
ghost use Rattle.pt_ranges.specs.Rows.{covers};
ghost use Rattle.pt_unwind.specs.Landings.{landing_of, takes};

use pt_base::Pc;
use pt_heap::Completion;
use pt_places::Handlers;
use pt_ranges::Handler;
use pt_unwind::{Landing, land_among};

/// The row that takes a completion that leaves a place.
#[tactic(auto, using(crate::proofs::TakingLemmas::for_raise, crate::proofs::TakingLemmas::for_jump))]
fn taking(handlers: &Handlers, pc: Pc, how: Completion) -> Option<Handler>
    ensures { result ≡ find (λ row. covers row pc && takes row how) handlers.now }
{
    match how {
        Completion::Normal => None,
        Completion::Raise(_) => handlers.for_raise(pc),
        Completion::Return(_) => handlers.for_return(pc),
        Completion::Leave { target } => handlers.for_jump(pc, target),
    }
}

/// Where a completion that leaves a place goes on. A raise and a return find that in constant time,
/// a jump too where the innermost row that takes a return takes it.
#[tactic(auto, using(crate::proofs::TakingLemmas::lands_at, crate::proofs::TakingLemmas::lands_nowhere))]
pub fn land(handlers: &Handlers, pc: Pc, how: Completion) -> Landing
    ensures { result ≡ landing_of handlers.now pc how }
{
    match taking(handlers, pc, how) {
        Some(row) => land_among(&[row], pc, how),
        None => land_among(&[], pc, how),
    }
}
