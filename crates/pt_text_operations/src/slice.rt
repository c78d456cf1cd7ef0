ghost use Rattle.std.specs.Prelude.{◌≡◌, ◌≢◌, Some, pos, IfOk};
ghost use Rattle.pt_content.specs.pt_attrs.Look.{object_of};
ghost use Rattle.pt_text_operations.specs.Slices.{slice_content, sliced_by, sliced_in, subscript_content};

use crate::answer::answered;
use crate::bounds::{Bounds, bounds_of};
use crate::picked::picked;
use crate::ranges::picked_range;
use pt_base::Memory;
use pt_content::{Content, NewObject, bad_argument, object_of};
use pt_heap::{Heap, Object, Slice, Value};
use pt_sequences::{item_content, list_content, tuple_content};
use pt_strs::slice;
use std::alloc::Global;

/// A slice of its start, stop and step (Language Reference 6.3.3).
pub fn slice_content(start: Value, stop: Value, step: Value) -> Content
    ensures { result ≡ slice_content start stop step }
{
    Content::New(NewObject::Slice(Slice { start, stop, step }))
}

/// The items of a container by the parts of a slice.
fn sliced_by(
    alloc: Global,
    heap: &Heap,
    container: Value,
    bounds: Bounds,
) -> Result<Content, Memory>
    requires { bounds.step ≢ Some (pos 0) }
    ensures { IfOk result (λ content.
        content ≡ sliced_by heap.now container bounds (object_of heap.now container)) }
{
    match object_of(heap, container) {
        Some(Object::Str(text)) => {
            let text = slice(alloc, text.text(), bounds.start, bounds.stop, bounds.step);
            answered(alloc, text)
        }
        Some(Object::List(items)) => { Ok(list_content(picked(alloc, bounds, items.as_slice())?)) }
        Some(Object::Tuple(items)) => {
            Ok(tuple_content(picked(alloc, bounds, items.as_slice())?))
        }
        Some(Object::Range(range)) => Ok(picked_range(bounds, *range)),
        _ => item_content(alloc, heap, container, Value::None),
    }
}

/// The items of a container by a slice. One that is no sequence has none, whatever the slice is.
fn sliced_in(alloc: Global, heap: &Heap, container: Value, slice: Slice) -> Result<Content, Memory>
    ensures { IfOk result (λ content.
        content ≡ sliced_in heap.now container slice (object_of heap.now container)) }
{
    match object_of(heap, container) {
        Some(Object::Str(_) | Object::List(_) | Object::Tuple(_) | Object::Range(_)) => {
            match bounds_of(heap, slice) {
                Ok(bounds) => sliced_by(alloc, heap, container, bounds),
                Err(class) => bad_argument(alloc, class),
            }
        }
        _ => item_content(alloc, heap, container, Value::None),
    }
}

/// `a[b]` (Language Reference 6.3.2, 6.3.3), of a list, tuple, range or text, by an integer or a slice.
/// Errors of an integer as those of `item_content`. A ValueError for a step of 0, a TypeError for a part
/// of a slice that is neither None nor an integer; Outside with the cause Integer where a slice of a
/// range would have a bound or a step beyond 128 bits.
pub fn subscript_content(
    alloc: Global,
    heap: &Heap,
    container: Value,
    index: Value,
) -> Result<Content, Memory>
    ensures { IfOk result (λ content. content ≡ subscript_content heap.now container index) }
{
    match object_of(heap, index) {
        Some(Object::Slice(slice)) => sliced_in(alloc, heap, container, *slice),
        _ => item_content(alloc, heap, container, index),
    }
}
