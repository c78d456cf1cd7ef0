ghost use Rattle.std.specs.Prelude.{◌≡◌, ◌<◌, ◌*ℤ◌, ◌+ℤ◌, pos, SomeIff, FitsSigned, IfOk};
ghost use Rattle.std.specs.Int.{w128};
ghost use Rattle.pt_sequences.specs.Ranges.{has_integer, integer, is_stepped, range_by};
ghost use Rattle.pt_sequences.specs.Ranges.{range_content, range_length, range_of};
ghost use Rattle.pt_sequences.specs.Ranges.{range_value, step_count, steps_within};

use pt_base::{Memory, What};
use pt_content::{Content, NewObject, Operand, TYPE_ERROR, VALUE_ERROR, bad_argument, operand_of};
use pt_heap::{Heap, Range, Value};
use std::alloc::Global;

/// An integer, if it is one of 128 bits.
pub fn integer(number: u128) -> Content
    ensures { result ≡ integer (pos number) }
{
    match i128::try_from(number) {
        Ok(number) => Content::Value(Value::Int(number)),
        Err(_) => Content::Outside(What::Integer),
    }
}

/// How many steps begin within a distance.
fn steps_within(distance: u128, size: u128) -> u128
    requires { 0 < size }
    ensures { result ≡ steps_within distance size }
{
    if distance == 0 {
        return 0;
    }
    (distance - 1) / size + 1
}

/// How many steps begin before the stop is reached.
fn step_count(start: i128, stop: i128, step: i128) -> u128
    ensures { result ≡ step_count start stop step }
{
    if step > 0 && start < stop {
        return steps_within(stop.abs_diff(start), step.unsigned_abs());
    }
    if step < 0 && stop < start {
        return steps_within(start.abs_diff(stop), step.unsigned_abs());
    }
    0
}

/// How many integers a range has.
pub fn range_length(range: Range) -> u128
    ensures { result ≡ range_length range }
{
    step_count(range.start, range.stop, range.step)
}

/// The integer that stands so many steps behind another, if it is one of 128 bits.
fn stepped(start: i128, step: i128, count: u128) -> Option<i128>
    ensures { SomeIff result (FitsSigned w128 (start +ℤ (pos count *ℤ step)))
        (start +ℤ (pos count *ℤ step)) }
{
    let offset = count.checked_mul(step.unsigned_abs())?;
    if step < 0 {
        start.checked_sub_unsigned(offset)
    } else {
        start.checked_add_unsigned(offset)
    }
}

/// The integer at a place of a range.
pub fn range_value(range: Range, place: u128) -> Option<Value>
    ensures { result ≡ range_value range place }
{
    if place >= range_length(range) {
        return None;
    }
    let item = stepped(range.start, range.step, place)?;
    Some(Value::Int(item))
}

/// Whether it is whole steps of a size, of which there are any, from one integer to another.
fn is_stepped(size: u128, from: i128, to: i128) -> bool
    ensures { result ≡ is_stepped size from to }
{
    if size == 0 {
        return false;
    }
    to.abs_diff(from) % size == 0
}

/// Whether an integer is one of a range (Library Reference, "Ranges").
pub fn has_integer(range: Range, number: i128) -> bool
    ensures { result ≡ has_integer range number }
{
    let is_within = if range.step < 0 {
        number <= range.start && range.stop < number
    } else {
        range.start <= number && number < range.stop
    };
    is_within && is_stepped(range.step.unsigned_abs(), range.start, number)
}

/// `range` of a start, a stop and a step.
fn range_of(alloc: Global, start: i128, stop: i128, step: i128) -> Result<Content, Memory>
    ensures { IfOk result (λ content. content ≡ range_of start stop step) }
{
    if step == 0 {
        return bad_argument(alloc, VALUE_ERROR);
    }
    Ok(Content::New(NewObject::Range(Range { start, stop, step })))
}

fn range_by(alloc: Global, start: Operand, stop: Operand, step: Operand) -> Result<Content, Memory>
    ensures { IfOk result (λ content. content ≡ range_by start stop step) }
{
    match (start, stop, step) {
        (Operand::Number(start), Operand::Number(stop), Operand::Number(step)) => {
            range_of(alloc, start, stop, step)
        }
        _ => bad_argument(alloc, TYPE_ERROR),
    }
}

/// `range` of a stop alone, of a start and a stop, or of these and a step (Library Reference,
/// "Built-in Functions"). A ValueError for a step of 0, a TypeError for what is no integer.
pub fn range_content(alloc: Global, heap: &Heap, args: &[Value]) -> Result<Content, Memory>
    ensures { IfOk result (λ content. content ≡ range_content heap.now args.now) }
{
    let (zero, one) = (Operand::Number(0), Operand::Number(1));
    match args {
        [stop] => range_by(alloc, zero, operand_of(heap, *stop), one),
        [start, stop] => range_by(
            alloc,
            operand_of(heap, *start),
            operand_of(heap, *stop),
            one,
        ),
        [start, stop, step] => {
            let step = operand_of(heap, *step);
            range_by(
                alloc,
                operand_of(heap, *start),
                operand_of(heap, *stop),
                step,
            )
        }
        _ => Ok(Content::Outside(What::Feature)),
    }
}
