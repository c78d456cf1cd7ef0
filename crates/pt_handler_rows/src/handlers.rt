//! Handlers, and what is held for the end of a `finally` part (Language Reference 8.4).
ghost use Rattle.std.specs.Prelude.{◌≡◌, drop, IfOk, IfSome, OnOk};
ghost use Rattle.pt_frames.specs.Slots.{active_in};
ghost use Rattle.pt_handler_rows.specs.Held.{completion_in, exception_in, let_go};
ghost use Rattle.pt_handler_rows.specs.Held.{one_completion, one_exception};
ghost use Rattle.pt_moves.specs.sem_rows.heap_rows.Told.{KeepsActive};
ghost use Rattle.pt_instr.specs.declared.Instr.TheVariants as instr;
ghost use Rattle.pt_moves.specs.Operands.{RowsSlots};

use pt_base::Memory;
use pt_frames::{Slot, Slots};
use pt_heap::{Completion, Value};
use pt_moves::Progress;

/// The exception that a slot holds, if it is there and holds one.
fn exception_in(slot: Option<Slot>) -> Option<Value>
    ensures { result ≡ exception_in slot }
{
    match slot {
        Some(Slot::Exc(exception)) => Some(exception),
        _ => None,
    }
}

/// Takes an exception off, or answers None where none is on top.
#[tactic(auto, using(crate::proofs::HandlerLemmas::first_exception, pt_moves::proofs::TakeLemmas::popped))]
fn take_exception(slots: &mut Slots) -> Option<Value>
    ensures exception { result ≡ one_exception slots.old }
    ensures below { IfSome result (λ _. slots.new ≡ drop 1 slots.old) }
{
    match exception_in(slots.get(0)) {
        Some(exception) => {
            slots.pop();
            Some(exception)
        }
        None => None,
    }
}

/// The completion that a slot holds, if it is there and holds one.
fn completion_in(slot: Option<Slot>) -> Option<Completion>
    ensures { result ≡ completion_in slot }
{
    match slot {
        Some(Slot::Pending(how)) => Some(how),
        _ => None,
    }
}

/// Takes a completion off, or answers None where none is on top.
#[tactic(auto, using(crate::proofs::HandlerLemmas::first_completion, pt_moves::proofs::TakeLemmas::popped))]
fn take_completion(slots: &mut Slots) -> Option<Completion>
    ensures completion { result ≡ one_completion slots.old }
    ensures below { IfSome result (λ _. slots.new ≡ drop 1 slots.old) }
{
    match completion_in(slots.get(0)) {
        Some(how) => {
            slots.pop();
            Some(how)
        }
        None => None,
    }
}

/// Gives the exception of a handler, which stays below it (Language Reference 8.4.1).
#[tactic(auto, using(crate::proofs::HandlerLemmas::first_exception, crate::proofs::HandlerLemmas::caught_row, crate::proofs::HandlerLemmas::caught_lacks, pt_moves::proofs::TakeLemmas::quiet_over))]
pub fn caught(slots: &mut Slots) -> Result<Progress, Memory>
    ensures row { IfOk result (λ p. RowsSlots instr.Caught slots.old p slots.new) }
    ensures active { OnOk result (active_in slots.new ≡ active_in slots.old) }
{
    match exception_in(slots.get(0)) {
        Some(exception) => {
            slots.push(Slot::Value(exception))?;
            Ok(Progress::Next)
        }
        None => Ok(Progress::Lacks),
    }
}

/// A handler ends, which has handled its exception (Language Reference 8.4.1).
#[tactic(auto, using(crate::proofs::HandlerLemmas::end_row, crate::proofs::HandlerLemmas::end_lacks))]
pub fn end_handler(slots: &mut Slots) -> Progress
    ensures row { RowsSlots instr.EndHandler slots.old result slots.new }
    ensures active { KeepsActive result slots.old slots.new }
{
    match take_exception(slots) {
        Some(_) => Progress::Next,
        None => Progress::Lacks,
    }
}

/// No handler has taken the exception, which goes on (Language Reference 8.4.1).
#[tactic(auto, using(crate::proofs::HandlerLemmas::rethrow_row, crate::proofs::HandlerLemmas::rethrow_lacks))]
pub fn rethrow(slots: &mut Slots) -> Progress
    ensures row { RowsSlots instr.Rethrow slots.old result slots.new }
    ensures active { KeepsActive result slots.old slots.new }
{
    match take_exception(slots) {
        Some(exception) => Progress::Reraises { exception },
        None => Progress::Lacks,
    }
}

/// A `finally` part begins that nothing has left for (Language Reference 8.4.4).
#[tactic(auto, using(crate::proofs::HandlerLemmas::normal_row, crate::proofs::HandlerLemmas::quiet_over_normal))]
pub fn normal(slots: &mut Slots) -> Result<Progress, Memory>
    ensures row { IfOk result (λ p. RowsSlots instr.Normal slots.old p slots.new) }
    ensures active { OnOk result (active_in slots.new ≡ active_in slots.old) }
{
    slots.push(Slot::Pending(Completion::Normal))?;
    Ok(Progress::Next)
}

/// What becomes of a completion that was held.
fn let_go(how: Completion) -> Progress
    ensures { result ≡ let_go how }
{
    match how {
        Completion::Raise(exception) => Progress::Reraises { exception },
        how => Progress::Leaves { how },
    }
}

/// A `finally` part ends, and the completion that it held goes on (Language Reference 8.4.4).
#[tactic(auto, using(crate::proofs::HandlerLemmas::finally_row, crate::proofs::HandlerLemmas::finally_lacks, crate::proofs::HandlerLemmas::raises_nothing))]
pub fn end_finally(slots: &mut Slots) -> Progress
    ensures row { RowsSlots instr.EndFinally slots.old result slots.new }
    ensures active { KeepsActive result slots.old slots.new }
{
    match take_completion(slots) {
        Some(how) => let_go(how),
        None => Progress::Lacks,
    }
}
