ghost use Rattle.std.specs.Prelude.{◌≡◌, slice_get, IfOk};
ghost use Rattle.std.specs.Option.{option_copied};
ghost use Rattle.pt_sequences.specs.Lengths.{entry_count, length_content, length_in, length_of};
ghost use Rattle.pt_sequences.specs.Lengths.{lengthless};
ghost use Rattle.pt_content.specs.Operands.{operand_of};

use crate::range::{integer, range_length};
use pt_base::{Memory, ObjId};
use pt_content::{
    Content, Helper, Operand, TYPE_ERROR, class_name, object_at, object_of, operand_of, sentence,
};
use pt_heap::{Heap, Object, Value};
use std::alloc::Global;

/// How many entries the dictionary at a place has.
fn entry_count(heap: &Heap, id: ObjId) -> u32
    ensures { result ≡ entry_count (slice_get heap.now id.0) }
{
    match object_at(heap, id) {
        Some(Object::Dict(dict)) => dict.len(),
        _ => 0,
    }
}

/// How many items a value has: characters of a text, items of a container, integers of a range.
pub fn length_of(heap: &Heap, value: Value) -> Option<u128>
    ensures { result ≡ length_of heap.now value }
{
    match object_of(heap, value) {
        Some(Object::Str(text)) => Some(text.len() as u128),
        Some(Object::List(items)) => Some(items.len() as u128),
        Some(Object::Tuple(items)) => Some(items.len() as u128),
        Some(Object::Dict(dict)) => Some(dict.len() as u128),
        Some(Object::Set(set)) => Some(set.len() as u128),
        Some(Object::Range(range)) => Some(range_length(*range)),
        Some(Object::View(view)) => Some(entry_count(heap, view.dict) as u128),
        _ => None,
    }
}

/// What `len` gives of a value that has no items.
fn lengthless(alloc: Global, heap: &Heap, value: Value) -> Result<Content, Memory>
    ensures { IfOk result
        (λ content. content ≡ lengthless heap.now value (operand_of heap.now value)) }
{
    if operand_of(heap, value) == Operand::Instance {
        return Ok(Content::Help {
            helper: Helper::LenOf,
            inverted: false,
        });
    }
    let class = class_name(heap, value);
    let text = sentence(alloc, &["object of type '", class, "' has no len()"])?;
    Ok(Content::Raise {
        class: TYPE_ERROR,
        text,
    })
}

/// `len` (Library Reference, "Built-in Functions").
pub fn length_content(alloc: Global, heap: &Heap, value: Value) -> Result<Content, Memory>
    ensures { IfOk result (λ content. content ≡ length_content heap.now value) }
{
    match length_of(heap, value) {
        Some(length) => Ok(integer(length)),
        None => lengthless(alloc, heap, value),
    }
}
