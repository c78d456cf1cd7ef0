//! What is known of an ask by its instruction.
ghost use Rattle.std.specs.Prelude.{◌≡◌};
ghost use Rattle.pt_applying.specs.Known.{call_of, decision_of, handled_by, known_call, tested, tested_in, value_at, what_is_called};

use law_doing::{Called, Decided};
use pt_base::ActNo;
use pt_frames::{Slot, Slots};
use pt_heap::Value;
use pt_instr::Instr;
use pt_pendings::Callee;

/// The value in a slot, if there is one.
fn value_at(slot: Option<Slot>) -> Option<Value>
    ensures { result ≡ value_at slot }
{
    match slot {
        Some(Slot::Value(value)) => Some(value),
        _ => None,
    }
}

/// What an instruction calls, whose row isn't done yet.
fn what_is_called(instr: Instr, slots: &Slots) -> Option<Value>
    ensures { result ≡ what_is_called instr slots.now }
{
    match instr {
        Instr::Call(count) => value_at(slots.get(count as usize)),
        Instr::CallKw(count, _) => value_at(slots.get(count as usize)),
        Instr::CallSpread(count, _) => value_at(slots.get(count as usize)),
        _ => None,
    }
}

/// What is called so, of which this is told.
fn call_of(function: Option<Value>, callee: Option<Callee>) -> Option<Called>
    ensures { result ≡ call_of function callee }
{
    match (function, callee) {
        (Some(function), Some(told)) => Some(Called { function, told }),
        _ => None,
    }
}

/// What is known of the call, if an instruction is one, whose row isn't done yet, and of which this is
/// told.
pub fn known_call(instr: Instr, slots: &Slots, callee: Option<Callee>) -> Option<Called>
    ensures { result ≡ known_call instr slots.now callee }
{
    call_of(what_is_called(instr, slots), callee)
}

/// The exception in a slot below a class.
fn tested_by(top: Option<Slot>, under: Option<Slot>) -> Option<Value>
    ensures { result ≡ tested top under }
{
    match (top, under) {
        (Some(Slot::Value(_)), Some(Slot::Exc(exception))) => Some(exception),
        _ => None,
    }
}

/// The exception that is tested, if the test's row isn't done yet.
pub fn tested_in(slots: &Slots) -> Option<Value>
    ensures { result ≡ tested_in slots.now }
{
    tested_by(slots.get(0), slots.get(1))
}

/// A handler takes the exception that was tested, where this slot says so.
fn handled_by(exception: Option<Value>, top: Option<Slot>) -> Decided
    ensures { result ≡ handled_by exception top }
{
    match (exception, top) {
        (Some(exception), Some(Slot::Value(Value::Bool(true)))) => Decided::Handles { exception },
        _ => Decided::Nothing,
    }
}

/// What an instruction has decided, whose row is done, behind which this act comes next; and this
/// exception was tested before it.
pub fn decision_of(
    instr: Instr,
    exception: Option<Value>,
    slots: &Slots,
    destination: ActNo,
) -> Decided
    ensures { result ≡ decision_of instr exception slots.now destination }
{
    match instr {
        Instr::JumpIf(_)
        | Instr::JumpUnless(_)
        | Instr::JumpIfKeep(_)
        | Instr::JumpUnlessKeep(_)
        | Instr::Next(_) => Decided::Branches { destination },
        Instr::Match => handled_by(exception, slots.get(0)),
        _ => Decided::Nothing,
    }
}
