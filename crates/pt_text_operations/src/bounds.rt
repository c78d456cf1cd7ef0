ghost use Rattle.std.specs.Prelude.{◌≡◌, ◌≢◌, Some, pos, IfOk};
ghost use Rattle.pt_text_operations.specs.Bounds.{bounds_by, bounds_of, number_of, part_of};

use pt_base::ObjId;
use pt_content::{Operand, TYPE_ERROR, VALUE_ERROR, operand_of};
use pt_heap::{Heap, Slice, Value};

/// The parts of a slice, each an integer, or None where it is left out.
#[derive(Clone, Copy, Debug)]
pub struct Bounds {
    pub start: Option<i128>,
    pub stop: Option<i128>,
    pub step: Option<i128>,
}

fn number_of(operand: Operand) -> Option<Option<i128>>
    ensures { result ≡ number_of operand }
{
    match operand {
        Operand::Number(number) => Some(Some(number)),
        _ => None,
    }
}

/// A part of a slice, if it is None or an integer.
fn part_of(heap: &Heap, value: Value) -> Option<Option<i128>>
    ensures { result ≡ part_of heap.now value }
{
    match value {
        Value::None => Some(None),
        _ => number_of(operand_of(heap, value)),
    }
}

/// The parts of a slice, or the class of the exception that one of them makes.
fn bounds_by(
    start: Option<Option<i128>>,
    stop: Option<Option<i128>>,
    step: Option<Option<i128>>,
) -> Result<Bounds, ObjId>
    ensures value { result ≡ bounds_by start stop step }
    ensures step { IfOk result (λ bounds. bounds.step ≢ Some (pos 0)) }
{
    match (start, stop, step) {
        (_, _, Some(Some(0))) => Err(VALUE_ERROR),
        (Some(start), Some(stop), Some(step)) => Ok(Bounds { start, stop, step }),
        _ => Err(TYPE_ERROR),
    }
}

/// The parts of a slice (Library Reference, `slice`), or the class of the exception that one of them
/// makes: a ValueError for a step of 0, a TypeError for what is neither None nor an integer.
pub fn bounds_of(heap: &Heap, slice: Slice) -> Result<Bounds, ObjId>
    ensures value { result ≡ bounds_of heap.now slice }
    ensures step { IfOk result (λ bounds. bounds.step ≢ Some (pos 0)) }
{
    let start = part_of(heap, slice.start);
    let stop = part_of(heap, slice.stop);
    bounds_by(start, stop, part_of(heap, slice.step))
}
