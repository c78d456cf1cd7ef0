ghost use Rattle.std.specs.Prelude.{◌≡◌, ◌-◌, ◌+◌, ◌^◌, ◌<◌, List, ℕ, Result, map, reverse, IfOk};
ghost use Rattle.std.specs.Str.{chars};
ghost use Rattle.pt_strs.specs.Answer.{AnswersAll};
ghost use Rattle.pt_strs.specs.declared.error.StrErr.{StrErr};
ghost use Rattle.pt_content.specs.Changes.{places_from};
ghost use Rattle.pt_text_operations.specs.Lists.{listed, listed_if, new_texts, with_list};

use crate::answer::{is_spelled, refused};
use pt_base::{Memory, ObjId, Seq, Text, What};
use pt_content::{Change, Content, NewObject, PrimAns};
use pt_heap::{Heap, Value};
use pt_strs::StrErr;
use std::alloc::Global;

/// The most entries that a container may have.
const ENTRY_LIMIT: usize = 4_194_304;

/// The most objects that a heap may have.
const OBJECT_LIMIT: u32 = 16_777_216;

/// The objects at the places from one on and before another.
fn places(alloc: Global, first: u32, end: u32) -> Result<Seq<Value>, Memory>
    ensures { IfOk result (λ values. values ≡ places_from first (end - first)) }
{
    let mut values = Seq::new(alloc);
    for place in first..end {
        values.push(Value::Obj(ObjId(place)))?;
    }
    Ok(values)
}

/// The same texts, the last one first.
fn reversed(alloc: Global, texts: Seq<Text>) -> Result<Seq<Text>, Memory>
    ensures { IfOk result (λ r. r ≡ reverse texts) }
{
    let mut left = texts;
    let mut reversed = Seq::new(alloc);
    while let Some(last) = left.pop() {
        reversed.push(last)?;
    }
    Ok(reversed)
}

/// New objects of texts, the last one first.
fn objects_back(alloc: Global, texts: Seq<Text>) -> Result<Seq<NewObject>, Memory>
    ensures { IfOk result (λ objects. objects ≡ new_texts (map chars (reverse texts))) }
{
    let mut left = texts;
    let mut objects = Seq::new(alloc);
    while let Some(last) = left.pop() {
        is_spelled(&last);
        objects.push(NewObject::Text(last))?;
    }
    Ok(objects)
}

/// So many new texts from a place on, and behind them the list of them.
fn with_list(
    alloc: Global,
    first: u32,
    count: u32,
    texts: Seq<NewObject>,
) -> Result<Content, Memory>
    requires { first + count < 2 ^ 32 }
    ensures { IfOk result (λ content. content ≡ with_list first count texts) }
{
    let end = first + count;
    let mut objects = texts;
    objects.push(NewObject::List(places(alloc, first, end)?))?;
    Ok(Content::Changed {
        change: Change {
            replacement: None,
            objects,
        },
        answer: PrimAns::Value(Value::Obj(ObjId(end))),
    })
}

/// A new list of new texts. Outside with the cause Length for more than 4,194,304, with the cause Heap
/// where there is no room for them.
fn listed(alloc: Global, heap: &Heap, texts: Seq<Text>) -> Result<Content, Memory>
    ensures { IfOk result (λ content. content ≡ listed heap.now (map chars texts)) }
{
    let count = texts.len();
    if count > ENTRY_LIMIT {
        return Ok(Content::Outside(What::Length));
    }
    let first = heap.len();
    if first as u64 + count as u64 >= OBJECT_LIMIT as u64 {
        return Ok(Content::Outside(What::Heap));
    }
    let objects = objects_back(alloc, reversed(alloc, texts)?)?;
    with_list(alloc, first, count as u32, objects)
}

/// A new list of the texts that are answered, or what keeps them from being there.
pub fn listed_if(
    alloc: Global,
    heap: &Heap,
    answer: Result<Seq<Text>, StrErr>,
) -> Result<Content, Memory>
    ensures { (wanted : Result (List (List ℕ)) StrErr) → AnswersAll answer wanted →
        IfOk result (λ content. content ≡ listed_if heap.now wanted) }
{
    match answer {
        Ok(texts) => listed(alloc, heap, texts),
        Err(error) => refused(alloc, error),
    }
}
