//! Whether an instruction comes to what it may come to.
ghost use Rattle.std.specs.Prelude.{◌≡◌, [], IsTrue, MatchBool};
ghost use Rattle.pt_instr.specs.declared.Instr.TheVariants as j;
ghost use Rattle.law_doing.specs.pt_answering.pt_replying.Replying.{given_told};
ghost use Rattle.law_doing.specs.pt_answering.Answering.{given_of};
ghost use Rattle.pt_applying.specs.Acting.{IfLeaves, RaisesAsItself};

use law_doing::{Asked, Decided, Progress};
use pt_instr::Instr;

/// Whether this is `raise` alone.
fn is_raise_again(instr: Instr) -> bool
    ensures { MatchBool result (instr ≡ j.RaiseAgain) (instr ≡ j.RaiseAgain → ⊥) }
{
    match instr {
        Instr::RaiseAgain => true,
        _ => false,
    }
}

/// Whether this is a handler's test.
fn is_match(instr: Instr) -> bool
    ensures { MatchBool result (instr ≡ j.Match) (instr ≡ j.Match → ⊥) }
{
    match instr {
        Instr::Match => true,
        _ => false,
    }
}

/// Whether `raise` alone raises again, and no other instruction does.
#[tactic(auto, using(crate::proofs::OtherProgress::other_raises))]
pub fn raises_as_itself(instr: Instr, progress: &Progress) -> bool
    ensures { IsTrue result → RaisesAsItself instr progress.now }
{
    match progress {
        Progress::RaisesAgain => is_raise_again(instr),
        _ => !is_raise_again(instr),
    }
}

/// Whether nothing is told of an ask, whatever its reply is.
fn is_silent(instr: Instr, asked: Asked) -> bool
    ensures told { IsTrue result → given_told (given_of asked) ≡ [] }
    ensures other { IsTrue result → instr ≡ j.Match → ⊥ }
{
    match (asked.called, asked.decided) {
        (None, Decided::Nothing) => !is_match(instr),
        _ => false,
    }
}

/// Whether nothing is told of what leaves its place.
pub fn leaves_silently(instr: Instr, progress: &Progress, asked: Asked) -> bool
    ensures { IsTrue result → IfLeaves progress.now
        ((given_told (given_of asked) ≡ []) × (instr ≡ j.Match → ⊥)) }
{
    match progress {
        Progress::Leaves { .. } | Progress::Reraises { .. } => is_silent(instr, asked),
        _ => true,
    }
}
