//! Tests that decide where code goes on (Language Reference 6.11, 6.13, 8.1, 8.2).
ghost use Rattle.std.specs.Prelude.{◌≡◌, IfOk, OnOk};
ghost use Rattle.pt_call_rows.specs.pt_block_calls.BlockCalls.{RowsOperation};
ghost use Rattle.pt_frames.specs.Slots.{active_in};
ghost use Rattle.pt_instr.specs.declared.Instr.TheVariants as instr;
ghost use Rattle.pt_operation_rows.specs.Branches.{Branches, gone_by, is_wanted, kept_by, truth_in};

use pt_base::{Memory, Pc, Seq, What};
use pt_call_rows::{Blocks, Given, Progress, answer_unless_asked, give, take_one};
use pt_content::{Op, PrimAns};
use pt_frames::Slots;
use pt_heap::{Heap, Value};
use std::alloc::Global;

/// The truth that the test of a value answers, or what that comes to instead.
fn truth_in(answer: PrimAns) -> Result<bool, Progress>
    ensures { result ≡ truth_in answer }
{
    match answer {
        PrimAns::Value(Value::Bool(truth)) => Ok(truth),
        PrimAns::Raise { class, arg } => Err(Progress::Fails { class, arg }),
        PrimAns::Help {
            helper: _,
            operands: _,
            inverted: _,
        } => Err(Progress::Outside { what: What::Helper }),
        PrimAns::Outside { what } => Err(Progress::Outside { what }),
        PrimAns::Value(_) | PrimAns::Values(_) | PrimAns::End | PrimAns::Print { text: _ } => {
            Err(Progress::Outside {
                what: What::Feature,
            })
        }
    }
}

/// Whether a truth is the one at which code goes to a place.
fn is_wanted(wanted: bool, truth: bool) -> bool
    ensures { result ≡ is_wanted wanted truth }
{
    if wanted { truth } else { !truth }
}

/// Goes on by a truth: to the place, where it is as wanted, with the value that is kept, if one is.
fn go_by(
    truth: bool,
    wanted: bool,
    target: Pc,
    kept: Option<Value>,
    slots: &mut Slots,
) -> Result<Progress, Memory>
    ensures progress { IfOk result (λ p. p ≡ gone_by wanted target truth) }
    ensures slots { OnOk result (slots.new ≡ kept_by wanted kept truth slots.old) }
    ensures active { OnOk result (active_in slots.new ≡ active_in slots.old) }
{
    if is_wanted(wanted, truth) {
        give(kept, slots)?;
        return Ok(Progress::Goto { pc: target });
    }
    Ok(Progress::Next)
}

/// Goes on by the truth of a value that was taken off the slots, which an instance may be asked for.
#[tactic(auto, using(crate::proofs::BranchLemmas::known_gone, crate::proofs::BranchLemmas::answered_gone, crate::proofs::BranchLemmas::instead_gone, crate::proofs::BranchLemmas::asked_gone))]
fn branch(
    alloc: Global,
    value: Value,
    wanted: bool,
    target: Pc,
    kept: Option<Value>,
    blocks: &Blocks,
    cells: &mut Seq<Option<Value>>,
    slots: &mut Slots,
    heap: &mut Heap,
) -> Result<Progress, Memory>
    ensures row { IfOk result
        (λ p. Branches value wanted target kept blocks.now slots.old cells.old heap.old p slots.new
        cells.new heap.new) }
    ensures active { OnOk result (active_in slots.new ≡ active_in slots.old) }
{
    if let Value::Bool(truth) = value {
        return go_by(truth, wanted, target, kept, slots);
    }
    let given = Given::Truth {
        wanted,
        target,
        kept,
    };
    match answer_unless_asked(alloc, Op::Truth, &[value], given, blocks, cells, heap)? {
        Ok(answer) => match truth_in(answer) {
            Ok(truth) => go_by(truth, wanted, target, kept, slots),
            Err(instead) => Ok(instead),
        },
        Err(asked) => Ok(asked),
    }
}

/// Goes to a place where the value on top is true (Language Reference 6.11, 8.1).
#[tactic(auto, using(crate::proofs::BranchLemmas::jump_if_row, crate::proofs::BranchLemmas::jump_if_lacks))]
pub fn jump_if(
    alloc: Global,
    to: Pc,
    blocks: &Blocks,
    cells: &mut Seq<Option<Value>>,
    slots: &mut Slots,
    heap: &mut Heap,
) -> Result<Progress, Memory>
    ensures row { IfOk result (λ p. RowsOperation (instr.JumpIf to) blocks.now slots.old cells.old
        heap.old p slots.new cells.new heap.new) }
    ensures active { OnOk result (active_in slots.new ≡ active_in slots.old) }
{
    match take_one(slots) {
        Some(value) => branch(alloc, value, true, to, None, blocks, cells, slots, heap),
        None => Ok(Progress::Lacks),
    }
}

/// Goes to a place where the value on top is false (Language Reference 6.11, 8.1, 8.2).
#[tactic(auto, using(crate::proofs::BranchLemmas::jump_unless_row, crate::proofs::BranchLemmas::jump_unless_lacks))]
pub fn jump_unless(
    alloc: Global,
    to: Pc,
    blocks: &Blocks,
    cells: &mut Seq<Option<Value>>,
    slots: &mut Slots,
    heap: &mut Heap,
) -> Result<Progress, Memory>
    ensures row { IfOk result (λ p. RowsOperation (instr.JumpUnless to) blocks.now slots.old
        cells.old heap.old p slots.new cells.new heap.new) }
    ensures active { OnOk result (active_in slots.new ≡ active_in slots.old) }
{
    match take_one(slots) {
        Some(value) => branch(alloc, value, false, to, None, blocks, cells, slots, heap),
        None => Ok(Progress::Lacks),
    }
}

/// Goes to a place where the value on top is true, which stays there (Language Reference 6.11).
#[tactic(auto, using(crate::proofs::BranchLemmas::jump_if_keep_row, crate::proofs::BranchLemmas::jump_if_keep_lacks))]
pub fn jump_if_keep(
    alloc: Global,
    to: Pc,
    blocks: &Blocks,
    cells: &mut Seq<Option<Value>>,
    slots: &mut Slots,
    heap: &mut Heap,
) -> Result<Progress, Memory>
    ensures row { IfOk result (λ p. RowsOperation (instr.JumpIfKeep to) blocks.now slots.old
        cells.old heap.old p slots.new cells.new heap.new) }
    ensures active { OnOk result (active_in slots.new ≡ active_in slots.old) }
{
    match take_one(slots) {
        Some(value) => {
            let kept = Some(value);
            branch(alloc, value, true, to, kept, blocks, cells, slots, heap)
        }
        None => Ok(Progress::Lacks),
    }
}

/// Goes to a place where the value on top is false, which stays there (Language Reference 6.11).
#[tactic(auto, using(crate::proofs::BranchLemmas::jump_unless_keep_row, crate::proofs::BranchLemmas::jump_unless_keep_lacks))]
pub fn jump_unless_keep(
    alloc: Global,
    to: Pc,
    blocks: &Blocks,
    cells: &mut Seq<Option<Value>>,
    slots: &mut Slots,
    heap: &mut Heap,
) -> Result<Progress, Memory>
    ensures row { IfOk result (λ p. RowsOperation (instr.JumpUnlessKeep to) blocks.now slots.old
        cells.old heap.old p slots.new cells.new heap.new) }
    ensures active { OnOk result (active_in slots.new ≡ active_in slots.old) }
{
    match take_one(slots) {
        Some(value) => {
            let kept = Some(value);
            branch(alloc, value, false, to, kept, blocks, cells, slots, heap)
        }
        None => Ok(Progress::Lacks),
    }
}
