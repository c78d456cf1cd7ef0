ghost use Rattle.std.specs.Prelude.{◌≡◌, slice_get, IfOk};
ghost use Rattle.std.specs.Option.{option_copied};
ghost use Rattle.pt_sequences.specs.Cursors.{ended, further};
ghost use Rattle.pt_views.specs.Cursors.{at_entry, count_of, dict_at, entry_at, given};
ghost use Rattle.pt_views.specs.Cursors.{iterator_content, iterator_over, next_content, next_entry};
ghost use Rattle.pt_views.specs.Cursors.{next_in, next_of, next_of_view, started};

use pt_base::{Memory, ObjId, Seq};
use pt_content::{Change, Content, Mutable, NewObject, PrimAns, Replacement, raise};
use pt_dicts::object_at;
use pt_heap::{Cursor, Dict, DictView, Heap, Object, Part, Value};
use pt_mappings::changed;
use std::alloc::Global;

/// The place of the class of exceptions that a changed container raises.
pub const RUNTIME_ERROR: ObjId = ObjId(41);

/// The dictionary at a place.
pub fn dict_at(heap: &Heap, id: ObjId) -> Option<&Dict>
    ensures { option_copied result ≡ dict_at heap.now id }
{
    match object_at(heap, id) {
        Some(Object::Dict(dict)) => Some(dict),
        _ => None,
    }
}

/// A cursor at the first of so many entries.
fn started(id: ObjId, count: u32) -> Content
    ensures { result ≡ started id count }
{
    Content::New(NewObject::Cursor(Cursor {
        over: Some(id),
        place: 0,
        count,
    }))
}

/// A cursor over a view.
fn started_over_view(heap: &Heap, id: ObjId, view: DictView) -> Content
    ensures { result ≡ started id (count_of (dict_at heap.now view.dict)) }
{
    match dict_at(heap, view.dict) {
        Some(dict) => started(id, dict.len()),
        None => started(id, 0),
    }
}

fn iterator_over(alloc: Global, heap: &Heap, id: ObjId) -> Result<Content, Memory>
    ensures { IfOk result
        (λ content. content ≡ iterator_over heap.now id (slice_get heap.now id.0)) }
{
    match object_at(heap, id) {
        Some(Object::Dict(dict)) => Ok(started(id, dict.len())),
        Some(Object::Set(set)) => Ok(started(id, set.len())),
        Some(Object::View(view)) => Ok(started_over_view(heap, id, *view)),
        _ => pt_sequences::iterator_content(alloc, heap, Value::Obj(id)),
    }
}

/// `iter` of any value (Language Reference 8.3; Library Reference, "Built-in Functions").
pub fn iterator_content(alloc: Global, heap: &Heap, value: Value) -> Result<Content, Memory>
    ensures { IfOk result (λ content. content ≡ iterator_content heap.now value) }
{
    match value {
        Value::Obj(id) => iterator_over(alloc, heap, id),
        _ => pt_sequences::iterator_content(alloc, heap, value),
    }
}

/// A cursor one item further.
fn further(cursor: Cursor) -> Cursor
    ensures { result ≡ further 1 cursor }
{
    Cursor {
        over: cursor.over,
        place: cursor.place.saturating_add(1),
        count: cursor.count,
    }
}

/// A cursor that has come to the end goes over nothing.
fn ended(alloc: Global, id: ObjId, cursor: Cursor) -> Content
    ensures { result ≡ ended id cursor }
{
    let cursor = Cursor {
        over: None,
        place: cursor.place,
        count: cursor.count,
    };
    changed(alloc, id, Mutable::Cursor(cursor), PrimAns::End)
}

/// The tuple of a key and a value, behind the others.
fn given_pair(
    alloc: Global,
    heap: &Heap,
    id: ObjId,
    cursor: Cursor,
    first: Value,
    value: Value,
) -> Result<Content, Memory>
    ensures { IfOk result
        (λ content. content ≡ given heap.now id cursor Part.Items first value) }
{
    let pair = Seq::from_slice(alloc, &[first, value])?;
    let mut objects = Seq::new(alloc);
    objects.push(NewObject::Tuple(pair))?;
    let object = Mutable::Cursor(further(cursor));
    Ok(Content::Changed {
        change: Change {
            replacement: Some(Replacement { id, object }),
            objects,
        },
        answer: PrimAns::Value(Value::Obj(ObjId(heap.len()))),
    })
}

/// What an entry gives.
fn given(
    alloc: Global,
    heap: &Heap,
    id: ObjId,
    cursor: Cursor,
    part: Part,
    first: Value,
    value: Value,
) -> Result<Content, Memory>
    ensures { IfOk result
        (λ content. content ≡ given heap.now id cursor part first value) }
{
    let next = Mutable::Cursor(further(cursor));
    match part {
        Part::Keys => Ok(changed(alloc, id, next, PrimAns::Value(first))),
        Part::Values => Ok(changed(alloc, id, next, PrimAns::Value(value))),
        Part::Items => given_pair(alloc, heap, id, cursor, first, value),
    }
}

/// The first form and the value of an entry by its number.
fn entry_at(entries: &Dict, place: u64) -> Option<(Value, Value)>
    ensures { result ≡ entry_at entries.now place }
{
    if place < entries.len() as u64 {
        return entries.at(place as u32);
    }
    None
}

fn at_entry(
    alloc: Global,
    heap: &Heap,
    id: ObjId,
    cursor: Cursor,
    part: Part,
    entry: Option<(Value, Value)>,
) -> Result<Content, Memory>
    ensures { IfOk result (λ content. content ≡ at_entry heap.now id cursor part entry) }
{
    match entry {
        Some((first, value)) => given(alloc, heap, id, cursor, part, first, value),
        None => Ok(ended(alloc, id, cursor)),
    }
}

fn next_entry(
    alloc: Global,
    heap: &Heap,
    id: ObjId,
    cursor: Cursor,
    part: Part,
    entries: &Dict,
) -> Result<Content, Memory>
    ensures { IfOk result
        (λ content. content ≡ next_entry heap.now id cursor part entries.now) }
{
    if cursor.count != entries.len() {
        return raise(alloc, RUNTIME_ERROR, "container changed during iteration");
    }
    let entry = entry_at(entries, cursor.place);
    at_entry(alloc, heap, id, cursor, part, entry)
}

fn next_of_view(
    alloc: Global,
    heap: &Heap,
    id: ObjId,
    cursor: Cursor,
    view: DictView,
) -> Result<Content, Memory>
    ensures { IfOk result (λ content. content
        ≡ next_of_view heap.now id cursor view.part (dict_at heap.now view.dict)) }
{
    match dict_at(heap, view.dict) {
        Some(dict) => next_entry(alloc, heap, id, cursor, view.part, dict),
        None => Ok(ended(alloc, id, cursor)),
    }
}

/// The item of a cursor over an object as that now is.
fn next_of(
    alloc: Global,
    heap: &Heap,
    id: ObjId,
    cursor: Cursor,
    over: ObjId,
) -> Result<Content, Memory>
    ensures { IfOk result
        (λ content. content ≡ next_of heap.now id cursor (slice_get heap.now over.0)) }
{
    match object_at(heap, over) {
        Some(Object::Dict(dict)) => next_entry(alloc, heap, id, cursor, Part::Keys, dict),
        Some(Object::Set(set)) => next_entry(alloc, heap, id, cursor, Part::Keys, set),
        Some(Object::View(view)) => next_of_view(alloc, heap, id, cursor, *view),
        _ => pt_sequences::next_content(alloc, heap, Value::Obj(id)),
    }
}

fn next_in(alloc: Global, heap: &Heap, id: ObjId) -> Result<Content, Memory>
    ensures { IfOk result (λ content. content ≡ next_in heap.now id (slice_get heap.now id.0)) }
{
    match object_at(heap, id) {
        Some(Object::Cursor(cursor)) => match cursor.over {
            Some(over) => next_of(alloc, heap, id, *cursor, over),
            None => pt_sequences::next_content(alloc, heap, Value::Obj(id)),
        },
        _ => pt_sequences::next_content(alloc, heap, Value::Obj(id)),
    }
}

/// The next item of any iterator (Language Reference 8.3; Library Reference, "Iterator Types"). A
/// RuntimeError where a dictionary or set has more or fewer entries than at the start.
pub fn next_content(alloc: Global, heap: &Heap, value: Value) -> Result<Content, Memory>
    ensures { IfOk result (λ content. content ≡ next_content heap.now value) }
{
    match value {
        Value::Obj(id) => next_in(alloc, heap, id),
        _ => pt_sequences::next_content(alloc, heap, value),
    }
}
