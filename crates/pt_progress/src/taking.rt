//! What a block gave goes to what it is for.
ghost use Rattle.std.specs.Prelude.{◌≡◌, ◌∷◌, drop, IfOk, OnOk};
ghost use Rattle.pt_frames.specs.declared.purpose.Purpose.TheVariants.{Exit, Format, Truth, Unpack};
ghost use Rattle.pt_frames.specs.declared.slot.Slot.TheVariants as slot;
ghost use Rattle.pt_heap.specs.declared.completion.Completion.TheVariants.{Raise};
ghost use Rattle.sem_rows.specs.heap_rows.Told.{row_count, unpacks};
ghost use Rattle.sem_rows.specs.pt_host.Calls.{opposite};
ghost use Rattle.pt_transfers.specs.pt_machine_state.Applies.{Takes};
ghost use Rattle.pt_progress.specs.Taking.{branched_to, kept_by, kept_on, left_of, moved, over};
ghost use Rattle.pt_progress.specs.Taking.{row_or, truth_or};

use crate::classes::end_class;
use crate::failing::{drop_two, outside, raise_with, refuse};
use pt_base::{Memory, Pc, Seq, What};
use pt_frames::{Activation, Purpose, Slot, Slots};
use pt_heap::{Completion, Value};
use pt_transfers::{BlockCode, Blocks, Machine, Stride, Writes, give_back, go_to, print};
use sem_rows::{Op, PrimAns, prim};

/// The opposite of a truth value.
fn opposite(value: Value) -> Value
    ensures { result ≡ opposite value }
{
    match value {
        Value::Bool(truth) => Value::Bool(!truth),
        _ => value,
    }
}

/// It is kept, as a value or an iterator, or dropped.
fn keep(machine: &mut Machine, next: Pc, why: Purpose, value: Value) -> Result<(), Memory>
    ensures { OnOk result (machine.new ≡ kept_by why next value machine.old) }
{
    match why {
        Purpose::Init { made } => give_back(machine, next, made),
        Purpose::Opposite => give_back(machine, next, opposite(value)),
        Purpose::Discard => {
            go_to(machine, next);
            Ok(())
        }
        Purpose::Iterate => {
            machine.here.slots.push(Slot::Iter(value))?;
            go_to(machine, next);
            Ok(())
        }
        Purpose::Item { iterator, end: _ } => {
            machine.here.slots.push(Slot::Iter(iterator))?;
            give_back(machine, next, value)
        }
        Purpose::Enter { exit } => {
            machine.here.slots.push(Slot::With(exit))?;
            give_back(machine, next, value)
        }
        _ => give_back(machine, next, value),
    }
}

/// Goes to a place with a value that is kept, if one is.
fn branch_to(machine: &mut Machine, target: Pc, kept: Option<Value>) -> Result<(), Memory>
    ensures { OnOk result (machine.new ≡ moved target (kept_on kept machine.old.here.slots)
        machine.old) }
{
    match kept {
        Some(kept) => give_back(machine, target, kept),
        None => {
            go_to(machine, target);
            Ok(())
        }
    }
}

/// A truth decides where the machine goes on (Language Reference 6.11, 6.13, 8.1, 8.2).
fn branch_by(
    machine: &mut Machine,
    next: Pc,
    wanted: bool,
    target: Pc,
    kept: Option<Value>,
    truth: bool,
) -> Result<(), Memory>
    ensures { OnOk result (machine.new ≡ branched_to wanted target kept next truth machine.old) }
{
    match (wanted, truth) {
        (true, true) => branch_to(machine, target, kept),
        (false, false) => branch_to(machine, target, kept),
        (true, false) => {
            go_to(machine, next);
            Ok(())
        }
        (false, true) => {
            go_to(machine, next);
            Ok(())
        }
    }
}

/// The truth that a block gave decides.
#[tactic(auto, using(crate::proofs::MovedLemmas::takes_branch, crate::proofs::MovedLemmas::takes_untrue))]
fn branch(
    machine: &mut Machine,
    writes: &mut Writes,
    blocks: &Blocks,
    caller: &BlockCode,
    next: Pc,
    closed: &Activation,
    wanted: bool,
    target: Pc,
    kept: Option<Value>,
    value: Value,
) -> Result<Stride, Memory>
    ensures { IfOk result (λ r. Takes blocks.now caller.now next closed.now
        (Truth wanted target kept) value r machine.old writes.old machine.new writes.new) }
{
    match value {
        Value::Bool(truth) => {
            branch_by(machine, next, wanted, target, kept, truth)?;
            Ok(Stride::Goes)
        }
        _ => Ok(outside(machine, blocks, What::Feature)),
    }
}

/// So many values that an operation answers, or its answer.
fn row_or(answer: PrimAns, count: usize) -> Result<Seq<Value>, PrimAns>
    ensures { result ≡ row_or count answer }
{
    match answer {
        PrimAns::Values(values) => {
            if values.len() == count {
                Ok(values)
            } else {
                Err(PrimAns::Values(values))
            }
        }
        other => Err(other),
    }
}

/// Puts values on the slots, the first one on top.
#[tactic(auto, using(crate::proofs::RowLemmas::one_over, crate::proofs::RowLemmas::all_over, crate::proofs::RowLemmas::none_over))]
fn push_values(values: &[Value], slots: &mut Slots) -> Result<(), Memory>
    ensures { OnOk result (slots.new ≡ over values.now slots.old) }
{
    let count = values.len();
    for at in 0..count {
        slots.push(Slot::Value(values[count - 1 - at]))?;
    }
    Ok(())
}

/// How many values are unpacked: so many, or so many before a list and behind it.
fn row_count(before: u32, after: Option<u32>) -> usize
    ensures { result ≡ row_count before after }
{
    match after {
        Some(after) => before as usize + 1 + after as usize,
        None => before as usize,
    }
}

/// The operation that unpacks so many.
fn unpacks(before: u32, after: Option<u32>) -> Op
    ensures { result ≡ unpacks before after }
{
    match after {
        Some(after) => Op::UnpackStar { before, after },
        None => Op::Unpack { count: before },
    }
}

/// The items of the list that a function of the prelude gave are unpacked (Language Reference 7.2).
#[tactic(auto, using(crate::proofs::RowLemmas::unpacked, crate::proofs::RowLemmas::not_unpacked))]
fn unpack(
    machine: &mut Machine,
    writes: &mut Writes,
    blocks: &Blocks,
    caller: &BlockCode,
    next: Pc,
    closed: &Activation,
    before: u32,
    after: Option<u32>,
    list: Value,
) -> Result<Stride, Memory>
    ensures { IfOk result (λ r. Takes blocks.now caller.now next closed.now (Unpack before after)
        list r machine.old writes.old machine.new writes.new) }
{
    let answer = prim(
        machine.alloc,
        unpacks(before, after),
        &[list],
        &mut machine.heap,
    )?;
    match row_or(answer, row_count(before, after)) {
        Ok(values) => {
            push_values(values.as_slice(), &mut machine.here.slots)?;
            go_to(machine, next);
            Ok(Stride::Goes)
        }
        Err(answer) => {
            let why = Purpose::Unpack { before, after };
            refuse(machine, writes, blocks, caller, &why, answer)
        }
    }
}

/// A truth that an operation answers, or its answer.
fn truth_or(answer: PrimAns) -> Result<bool, PrimAns>
    ensures { result ≡ truth_or answer }
{
    match answer {
        PrimAns::Value(Value::Bool(truth)) => Ok(truth),
        other => Err(other),
    }
}

/// What an exit holds that has swallowed a raise, or hasn't.
fn left_of(is_swallowed: bool, exception: Value) -> Completion
    ensures { result ≡ left_of is_swallowed (Raise exception) }
{
    if is_swallowed {
        Completion::Normal
    } else {
        Completion::Raise(exception)
    }
}

/// The slots of an exit come off, and what it holds stays behind it.
fn hold(machine: &mut Machine, next: Pc, completion: Completion) -> Result<(), Memory>
    ensures { OnOk result (machine.new ≡ moved next
        (slot.Pending completion ∷ drop 2 machine.old.here.slots) machine.old) }
{
    drop_two(&mut machine.here.slots);
    machine.here.slots.push(Slot::Pending(completion))?;
    go_to(machine, next);
    Ok(())
}

/// What the `__exit__` of a context manager gave swallows the raise by which that was left, where it
/// is true (Language Reference 8.5).
#[tactic(auto, using(crate::proofs::RowLemmas::swallowed, crate::proofs::RowLemmas::not_swallowed))]
fn swallow(
    machine: &mut Machine,
    writes: &mut Writes,
    blocks: &Blocks,
    caller: &BlockCode,
    next: Pc,
    closed: &Activation,
    exception: Value,
    value: Value,
) -> Result<Stride, Memory>
    ensures { IfOk result (λ r. Takes blocks.now caller.now next closed.now
        (Exit (Raise exception)) value r machine.old writes.old machine.new writes.new) }
{
    let answer = prim(machine.alloc, Op::Truth, &[value], &mut machine.heap)?;
    match truth_or(answer) {
        Ok(is_swallowed) => {
            hold(machine, next, left_of(is_swallowed, exception))?;
            Ok(Stride::Goes)
        }
        Err(answer) => {
            let why = Purpose::Exit {
                completion: Completion::Raise(exception),
            };
            refuse(machine, writes, blocks, caller, &why, answer)
        }
    }
}

/// The `__exit__` of a context manager came to its end.
#[tactic(auto, using(crate::proofs::MovedLemmas::takes_held))]
fn end_exit(
    machine: &mut Machine,
    writes: &mut Writes,
    blocks: &Blocks,
    caller: &BlockCode,
    next: Pc,
    closed: &Activation,
    completion: Completion,
    value: Value,
) -> Result<Stride, Memory>
    ensures { IfOk result (λ r. Takes blocks.now caller.now next closed.now (Exit completion) value
        r machine.old writes.old machine.new writes.new) }
{
    match completion {
        Completion::Raise(exception) => {
            swallow(
                machine, writes, blocks, caller, next, closed, exception, value,
            )
        }
        _ => {
            hold(machine, next, completion)?;
            Ok(Stride::Goes)
        }
    }
}

/// The text that a function of the prelude gave for a field is laid out by its spec.
#[tactic(auto, using(crate::proofs::FormatLemmas::laid_out, crate::proofs::FormatLemmas::laid_failed, crate::proofs::FormatLemmas::laid_outside, crate::proofs::FormatLemmas::laid_printed))]
fn end_format(
    machine: &mut Machine,
    writes: &mut Writes,
    blocks: &Blocks,
    caller: &BlockCode,
    next: Pc,
    closed: &Activation,
    spec: Value,
    text: Value,
) -> Result<Stride, Memory>
    ensures { IfOk result (λ r. Takes blocks.now caller.now next closed.now (Format spec) text r
        machine.old writes.old machine.new writes.new) }
{
    match prim(
        machine.alloc,
        Op::Format(None),
        &[text, spec],
        &mut machine.heap,
    )? {
        PrimAns::Value(laid) => {
            give_back(machine, next, laid)?;
            Ok(Stride::Goes)
        }
        PrimAns::Raise { class, arg } => raise_with(machine, writes, blocks, caller, class, arg),
        PrimAns::Outside { what } => Ok(outside(machine, blocks, what)),
        PrimAns::Help {
            helper: _,
            operands: _,
            inverted: _,
        } => Ok(outside(machine, blocks, What::Helper)),
        PrimAns::Print { text } => {
            print(writes, text)?;
            give_back(machine, next, Value::None)?;
            Ok(Stride::Goes)
        }
        PrimAns::Values(_) | PrimAns::End => Ok(outside(machine, blocks, What::Feature)),
    }
}

/// What a block gave goes to what it is for.
#[tactic(auto, using(crate::proofs::MovedLemmas::takes_kept))]
pub fn take(
    machine: &mut Machine,
    writes: &mut Writes,
    blocks: &Blocks,
    caller: &BlockCode,
    next: Pc,
    closed: &Activation,
    why: Purpose,
    value: Value,
) -> Result<Stride, Memory>
    ensures { IfOk result (λ r. Takes blocks.now caller.now next closed.now why value r machine.old
        writes.old machine.new writes.new) }
{
    match why {
        Purpose::Class { base, cell } => {
            end_class(machine, writes, blocks, caller, next, closed, base, cell)
        }
        Purpose::Truth {
            wanted,
            target,
            kept,
        } => branch(
            machine, writes, blocks, caller, next, closed, wanted, target, kept, value,
        ),
        Purpose::Unpack { before, after } => unpack(
            machine, writes, blocks, caller, next, closed, before, after, value,
        ),
        Purpose::Exit { completion } => end_exit(
            machine, writes, blocks, caller, next, closed, completion, value,
        ),
        Purpose::Format { spec } => {
            end_format(machine, writes, blocks, caller, next, closed, spec, value)
        }
        _ => {
            keep(machine, next, why, value)?;
            Ok(Stride::Goes)
        }
    }
}
