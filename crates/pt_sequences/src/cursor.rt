ghost use Rattle.std.specs.Prelude.{◌≡◌, slice_get, IfOk};
ghost use Rattle.std.specs.Char.{encode_utf8};
ghost use Rattle.pt_content.specs.Operands.{operand_of};
ghost use Rattle.pt_sequences.specs.Cursors.{asked_or, at_char, at_item, chars_from, ended};
ghost use Rattle.pt_sequences.specs.Cursors.{further, item_of, iterator_content, iterator_over};
ghost use Rattle.pt_sequences.specs.Cursors.{next_content, next_in, next_over, not_iterable};
ghost use Rattle.pt_sequences.specs.Cursors.{not_iterator, started, with_cursor};

use crate::range::range_value;
use pt_base::{Memory, ObjId, Seq, Text, What};
use pt_content::{
    Change, Content, Helper, Mutable, NewObject, Operand, PrimAns, Replacement, object_at,
    operand_of, use_type_error,
};
use pt_heap::{Cursor, Heap, Object, Str, Value};
use std::alloc::Global;

/// Asks a helper of an instance of a script's class. Another value isn't what it is used as.
pub fn asked_or(
    alloc: Global,
    helper: Helper,
    what: &str,
    heap: &Heap,
    value: Value,
) -> Result<Content, Memory>
    ensures { IfOk result (λ content.
        content ≡ asked_or helper what.now heap.now value (operand_of heap.now value)) }
{
    if operand_of(heap, value) == Operand::Instance {
        return Ok(Content::Help {
            helper,
            inverted: false,
        });
    }
    use_type_error(alloc, heap, value, what)
}

fn not_iterable(alloc: Global, heap: &Heap, value: Value) -> Result<Content, Memory>
    ensures { IfOk result (λ content. content ≡ not_iterable heap.now value) }
{
    asked_or(alloc, Helper::IterOf, "iterable", heap, value)
}

fn not_iterator(alloc: Global, heap: &Heap, value: Value) -> Result<Content, Memory>
    ensures { IfOk result (λ content. content ≡ not_iterator heap.now value) }
{
    asked_or(alloc, Helper::NextOf, "an iterator", heap, value)
}

/// A cursor at the first item of what stands at a place.
fn started(id: ObjId) -> Content
    ensures { result ≡ started id }
{
    Content::New(NewObject::Cursor(Cursor {
        over: Some(id),
        place: 0,
        count: 0,
    }))
}

fn iterator_over(alloc: Global, heap: &Heap, id: ObjId) -> Result<Content, Memory>
    ensures { IfOk result
        (λ content. content ≡ iterator_over heap.now id (slice_get heap.now id.0)) }
{
    match object_at(heap, id) {
        Some(Object::Str(_)) => Ok(started(id)),
        Some(Object::List(_)) => Ok(started(id)),
        Some(Object::Tuple(_)) => Ok(started(id)),
        Some(Object::Range(_)) => Ok(started(id)),
        Some(Object::Cursor(_)) => Ok(Content::Value(Value::Obj(id))),
        Some(Object::Generator(_)) => Ok(Content::Value(Value::Obj(id))),
        Some(Object::Dict(_)) => Ok(Content::Outside(What::Feature)),
        Some(Object::Set(_)) => Ok(Content::Outside(What::Feature)),
        Some(Object::View(_)) => Ok(Content::Outside(What::Feature)),
        _ => not_iterable(alloc, heap, Value::Obj(id)),
    }
}

/// `iter` (Language Reference 8.3; Library Reference, "Built-in Functions"). An iterator is its own.
pub fn iterator_content(alloc: Global, heap: &Heap, value: Value) -> Result<Content, Memory>
    ensures { IfOk result (λ content. content ≡ iterator_content heap.now value) }
{
    match value {
        Value::Obj(id) => iterator_over(alloc, heap, id),
        _ => not_iterable(alloc, heap, value),
    }
}

/// A cursor as it is from now on, an object that is made for its item, and an answer.
fn with_cursor(id: ObjId, cursor: Cursor, objects: Seq<NewObject>, answer: PrimAns) -> Content
    ensures { result ≡ with_cursor id cursor objects answer }
{
    let replacement = Some(Replacement {
        id,
        object: Mutable::Cursor(cursor),
    });
    Content::Changed {
        change: Change {
            replacement,
            objects,
        },
        answer,
    }
}

/// A cursor that has come to the end goes over nothing.
fn ended(alloc: Global, id: ObjId, cursor: Cursor) -> Content
    ensures { result ≡ ended id cursor }
{
    let cursor = Cursor {
        over: None,
        place: cursor.place,
        count: cursor.count,
    };
    with_cursor(id, cursor, Seq::new(alloc), PrimAns::End)
}

/// A cursor so much further.
fn further(cursor: Cursor, by: u64) -> Cursor
    ensures { result ≡ further by cursor }
{
    Cursor {
        over: cursor.over,
        place: cursor.place.saturating_add(by),
        count: cursor.count,
    }
}

fn at_item(alloc: Global, id: ObjId, cursor: Cursor, item: Option<Value>) -> Content
    ensures { result ≡ at_item id cursor item }
{
    match item {
        Some(item) => {
            let answer = PrimAns::Value(item);
            with_cursor(id, further(cursor, 1), Seq::new(alloc), answer)
        }
        None => ended(alloc, id, cursor),
    }
}

/// The item at a place of a list or tuple.
fn value_at(items: &[Value], place: u64) -> Option<Value>
    ensures { result ≡ slice_get items.now place }
{
    items.get(place as usize).copied()
}

/// The character of a text that begins at a byte.
fn char_from(text: &str, place: u64) -> Option<char>
    ensures { result ≡ slice_get (chars_from text.now place) 0 }
{
    let (_, rest) = text.split_at_checked(place as usize)?;
    rest.chars().next()
}

/// A character as a text of its own.
pub fn text_of_char(alloc: Global, c: char) -> Result<Text, Memory>
    ensures { IfOk result (λ text. text ≡ encode_utf8 c) }
{
    let mut bytes = [0; 4];
    Text::from_str(alloc, c.encode_utf8(&mut bytes))
}

fn at_char(
    alloc: Global,
    heap: &Heap,
    id: ObjId,
    cursor: Cursor,
    text: &Str,
) -> Result<Content, Memory>
    ensures { IfOk result (λ content.
        content ≡ at_char heap.now id cursor (chars_from text.now cursor.place)) }
{
    let Some(c) = char_from(text.text().as_str(), cursor.place) else {
        return Ok(ended(alloc, id, cursor));
    };
    let item = text_of_char(alloc, c)?;
    let cursor = further(cursor, item.len() as u64);
    let mut objects = Seq::new(alloc);
    objects.push(NewObject::Text(item))?;
    let answer = PrimAns::Value(Value::Obj(ObjId(heap.len())));
    Ok(with_cursor(id, cursor, objects, answer))
}

/// The item of a cursor over an object as that now is.
fn item_of(
    alloc: Global,
    heap: &Heap,
    id: ObjId,
    cursor: Cursor,
    over: ObjId,
) -> Result<Content, Memory>
    ensures { IfOk result
        (λ content. content ≡ item_of heap.now id cursor (slice_get heap.now over.0)) }
{
    match object_at(heap, over) {
        Some(Object::List(items)) => {
            let item = value_at(items.as_slice(), cursor.place);
            Ok(at_item(alloc, id, cursor, item))
        }
        Some(Object::Tuple(items)) => {
            let item = value_at(items.as_slice(), cursor.place);
            Ok(at_item(alloc, id, cursor, item))
        }
        Some(Object::Range(range)) => {
            let item = range_value(*range, cursor.place as u128);
            Ok(at_item(alloc, id, cursor, item))
        }
        Some(Object::Str(text)) => at_char(alloc, heap, id, cursor, text),
        _ => Ok(Content::Outside(What::Feature)),
    }
}

fn next_over(alloc: Global, heap: &Heap, id: ObjId, cursor: Cursor) -> Result<Content, Memory>
    ensures { IfOk result (λ content. content ≡ next_over heap.now id cursor cursor.over) }
{
    match cursor.over {
        Some(over) => item_of(alloc, heap, id, cursor, over),
        None => Ok(ended(alloc, id, cursor)),
    }
}

fn next_in(alloc: Global, heap: &Heap, id: ObjId) -> Result<Content, Memory>
    ensures { IfOk result (λ content. content ≡ next_in heap.now id (slice_get heap.now id.0)) }
{
    match object_at(heap, id) {
        Some(Object::Cursor(cursor)) => next_over(alloc, heap, id, *cursor),
        Some(Object::Generator(_)) => Ok(Content::Outside(What::Feature)),
        _ => not_iterator(alloc, heap, Value::Obj(id)),
    }
}

/// The next item of an iterator (Language Reference 8.3; Library Reference, "Iterator Types"). A
/// cursor sees the items that its list now has; once it has come to the end it stays there.
pub fn next_content(alloc: Global, heap: &Heap, value: Value) -> Result<Content, Memory>
    ensures { IfOk result (λ content. content ≡ next_content heap.now value) }
{
    match value {
        Value::Obj(id) => next_in(alloc, heap, id),
        _ => not_iterator(alloc, heap, value),
    }
}
