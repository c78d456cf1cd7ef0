//! What `*a` and `**a` stand for among the arguments of a call (Language Reference 6.3.4).
ghost use Rattle.std.specs.Prelude.{◌≡◌, IfOk};
ghost use Rattle.pt_content.specs.pt_attrs.Look.{object_of};
ghost use Rattle.pt_prims.specs.Spreads.{are_named, is_named, spread, spread_in, spread_named, spread_named_in};

use pt_base::{Dup, Memory, Seq};
use pt_content::{Content, Helper, NewObject, TYPE_ERROR, bad_argument, object_of, text_of};
use pt_heap::{Dict, Heap, Object, Value};
use pt_methods::tuple_content;
use std::alloc::Global;

/// `*a`: the items of a list or a tuple; the prelude goes through other values.
pub fn spread(alloc: Global, heap: &Heap, a: Value) -> Result<Content, Memory>
    ensures { IfOk result (λ content. content ≡ spread heap.now a) }
{
    match object_of(heap, a) {
        Some(Object::List(items)) => Ok(tuple_content(Seq::from_slice(alloc, items.as_slice())?)),
        Some(Object::Tuple(items)) => Ok(tuple_content(Seq::from_slice(alloc, items.as_slice())?)),
        _ => Ok(Content::Help {
            helper: Helper::TupleOf,
            inverted: false,
        }),
    }
}

/// Whether each key of a dictionary is a text.
pub fn are_named(heap: &Heap, dict: &Dict) -> bool
    ensures { result ≡ are_named heap.now dict.now }
{
    let mut entries = dict.entries();
    while let Some(entry) = entries.next() {
        if text_of(heap, entry.first).is_none() {
            return false;
        }
    }
    true
}

/// `**a`: the entries of a dictionary whose keys are texts.
pub fn spread_named(alloc: Global, heap: &Heap, a: Value) -> Result<Content, Memory>
    ensures { IfOk result (λ content. content ≡ spread_named heap.now a) }
{
    match object_of(heap, a) {
        Some(Object::Dict(dict)) => {
            if are_named(heap, dict) {
                return Ok(Content::New(NewObject::Dict(dict.dup(alloc)?)));
            }
            bad_argument(alloc, TYPE_ERROR)
        }
        _ => bad_argument(alloc, TYPE_ERROR),
    }
}
