//! Operations on values that ask no function of the prelude.
ghost use Rattle.std.specs.Prelude.{◌≡◌, IfOk, OnOk};
ghost use Rattle.pt_frames.specs.Slots.{active_in};
ghost use Rattle.pt_operators.specs.Operates.{over_value, progress_of, value_given};
ghost use Rattle.pt_prims.specs.Operations.{prim_answer, prim_heap};

use pt_base::{Memory, What};
use pt_content::{Op, PrimAns};
use pt_frames::{Slot, Slots};
use pt_heap::{Heap, Value};
use pt_moves::Progress;
use pt_prims::prim;
use std::alloc::Global;

/// What the answer of an operation comes to where a value is awaited: the value that is given, if
/// one is, and how the instruction goes on.
#[derive(Debug, Drop)]
pub struct Outcome {
    pub value: Option<Value>,
    pub progress: Progress,
}

/// What an answer comes to where a value is awaited.
pub fn outcome_of(answer: PrimAns) -> Outcome
    ensures value { result.value ≡ value_given answer }
    ensures progress { result.progress ≡ progress_of answer }
{
    match answer {
        PrimAns::Value(value) => Outcome {
            value: Some(value),
            progress: Progress::Next,
        },
        PrimAns::Values(_) | PrimAns::End => Outcome {
            value: None,
            progress: Progress::Outside {
                what: What::Feature,
            },
        },
        PrimAns::Raise { class, arg } => Outcome {
            value: None,
            progress: Progress::Fails { class, arg },
        },
        PrimAns::Help {
            helper: _,
            operands: _,
            inverted: _,
        } => Outcome {
            value: None,
            progress: Progress::Outside { what: What::Helper },
        },
        PrimAns::Print { text } => Outcome {
            value: Some(Value::None),
            progress: Progress::Print { text },
        },
        PrimAns::Outside { what } => Outcome {
            value: None,
            progress: Progress::Outside { what },
        },
    }
}

/// Asks for an operation on values, which awaits a value.
pub fn ask(alloc: Global, op: Op, args: &[Value], heap: &mut Heap) -> Result<Outcome, Memory>
    ensures value { IfOk result
        (λ o. o.value ≡ value_given (prim_answer op args.now heap.old)) }
    ensures progress { IfOk result
        (λ o. o.progress ≡ progress_of (prim_answer op args.now heap.old)) }
    ensures heap { OnOk result (heap.new ≡ prim_heap op args.now heap.old) }
{
    let answer = prim(alloc, op, args, heap)?;
    Ok(outcome_of(answer))
}

/// Puts a value on the slots, if there is one.
#[tactic(auto, using(pt_moves::proofs::TakeLemmas::quiet_over))]
pub fn give(value: Option<Value>, slots: &mut Slots) -> Result<(), Memory>
    ensures slots { OnOk result (slots.new ≡ over_value value slots.old) }
    ensures active { OnOk result (active_in slots.new ≡ active_in slots.old) }
{
    match value {
        Some(value) => slots.push(Slot::Value(value)),
        None => Ok(()),
    }
}

/// What an answer comes to where a value is awaited, which is put on the slots.
pub fn answered(answer: PrimAns, slots: &mut Slots) -> Result<Progress, Memory>
    ensures progress { IfOk result (λ p. p ≡ progress_of answer) }
    ensures slots { OnOk result (slots.new ≡ over_value (value_given answer) slots.old) }
    ensures active { OnOk result (active_in slots.new ≡ active_in slots.old) }
{
    let outcome = outcome_of(answer);
    give(outcome.value, slots)?;
    Ok(outcome.progress)
}
