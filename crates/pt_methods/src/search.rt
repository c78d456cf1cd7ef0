//! Values that are sought among others.

ghost use Rattle.std.specs.Prelude.{◌≡◌, ◌<◌, ℕ, Ok, Some, length, IfOk};
ghost use Rattle.pt_methods.specs.Searches.{count_content, count_of, equal, index_content};
ghost use Rattle.pt_methods.specs.Searches.{place_from, remove_content, told};

use pt_base::{CompareOp, Memory, What};
use pt_comparisons::{comparison_content, need_help};
use pt_content::{Content, VALUE_ERROR, bad_argument};
use pt_heap::{Heap, Value};
use pt_list_changes::{list_changed, without_item};
use std::alloc::Global;

/// Whether a content says that something is so, or else the content.
fn told(content: Content) -> Result<bool, Content>
    ensures { result ≡ told content }
{
    match content {
        Content::Value(Value::Bool(truth)) => Ok(truth),
        other => Err(other),
    }
}

/// Whether two values are equal, or what is answered where that isn't told.
fn equal(alloc: Global, heap: &Heap, a: Value, b: Value) -> Result<Result<bool, Content>, Memory>
    ensures { IfOk result (λ told. told ≡ equal heap.now a b) }
{
    Ok(told(comparison_content(alloc, CompareOp::Equal, heap, a, b)?))
}

/// The first place of an equal value.
fn place_of(
    alloc: Global,
    heap: &Heap,
    sought: Value,
    values: &[Value],
) -> Result<Result<Option<usize>, Content>, Memory>
    ensures place { IfOk result (λ place. place ≡ place_from heap.now sought 0 values.now) }
    ensures within { IfOk result (λ found. (place : ℕ) → found ≡ Ok (Some place) →
        place < length values.now) }
{
    for (place, value) in values.iter().enumerate() {
        match equal(alloc, heap, *value, sought)? {
            Ok(true) => return Ok(Ok(Some(place))),
            Ok(false) => {}
            Err(content) => return Ok(Err(content)),
        }
    }
    Ok(Ok(None))
}

/// How many equal values there are.
#[tactic(auto, using(crate::proofs::SearchLemmas::with_none, crate::proofs::SearchLemmas::with_one_more, crate::proofs::SearchLemmas::with_end))]
fn count_of(
    alloc: Global,
    heap: &Heap,
    sought: Value,
    values: &[Value],
) -> Result<Result<usize, Content>, Memory>
    ensures { IfOk result (λ count. count ≡ count_of heap.now sought values.now) }
{
    let mut count = 0;
    for value in values {
        match equal(alloc, heap, *value, sought)? {
            Ok(true) => count += 1,
            Ok(false) => {}
            Err(content) => return Ok(Err(content)),
        }
    }
    Ok(Ok(count))
}

/// `index` (Library Reference, "Common Sequence Operations"). A ValueError where the value isn't
/// there. Outside with the cause Feature where an instance of a script's class is reached, as of
/// `count` and `remove`.
pub fn index_content(
    alloc: Global,
    heap: &Heap,
    container: Value,
    values: &[Value],
    sought: Value,
) -> Result<Content, Memory>
    ensures { IfOk result (λ content.
        content ≡ index_content heap.now container values.now sought) }
{
    if need_help(alloc, heap, &[container, sought])? {
        return Ok(Content::Outside(What::Feature));
    }
    match place_of(alloc, heap, sought, values)? {
        Ok(Some(place)) => Ok(Content::Value(Value::Int(place as i128))),
        Ok(None) => bad_argument(alloc, VALUE_ERROR),
        Err(content) => Ok(content),
    }
}

/// `count`
pub fn count_content(
    alloc: Global,
    heap: &Heap,
    container: Value,
    values: &[Value],
    sought: Value,
) -> Result<Content, Memory>
    ensures { IfOk result (λ content.
        content ≡ count_content heap.now container values.now sought) }
{
    if need_help(alloc, heap, &[container, sought])? {
        return Ok(Content::Outside(What::Feature));
    }
    match count_of(alloc, heap, sought, values)? {
        Ok(count) => Ok(Content::Value(Value::Int(count as i128))),
        Err(content) => Ok(content),
    }
}

/// `remove` (Library Reference, "Mutable Sequence Types"). A ValueError where the value isn't there.
pub fn remove_content(
    alloc: Global,
    heap: &Heap,
    list: Value,
    values: &[Value],
    sought: Value,
) -> Result<Content, Memory>
    ensures { IfOk result (λ content. content ≡ remove_content heap.now list values.now sought) }
{
    if need_help(alloc, heap, &[list, sought])? {
        return Ok(Content::Outside(What::Feature));
    }
    match place_of(alloc, heap, sought, values)? {
        Ok(Some(place)) => {
            let left = without_item(alloc, values, place)?;
            Ok(list_changed(alloc, list, left, Value::None))
        }
        Ok(None) => bad_argument(alloc, VALUE_ERROR),
        Err(content) => Ok(content),
    }
}
