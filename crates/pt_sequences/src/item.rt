ghost use Rattle.std.specs.Prelude.{◌≡◌, length, IfOk};
ghost use Rattle.std.specs.Str.{chars};
ghost use Rattle.pt_content.specs.pt_attrs.Look.{object_of};
ghost use Rattle.pt_sequences.specs.Items.{char_at, char_or, index_of, integer_at, item_at};
ghost use Rattle.pt_sequences.specs.Items.{item_content, item_or, not_subscriptable, place_of};
ghost use Rattle.pt_sequences.specs.Items.{unindexed, value_at};
ghost use Rattle.pt_sequences.specs.Ranges.{range_length};

use crate::cursor::text_of_char;
use crate::range::{range_length, range_value};
use pt_base::{Memory, What};
use pt_content::{
    Content, INDEX_ERROR, NewObject, Operand, TYPE_ERROR, bad_argument, object_of, operand_of,
    raise, use_type_error,
};
use pt_heap::{Heap, Object, Range, Str, Value};
use std::alloc::Global;

/// What a value is as an index.
#[derive(Clone, Copy, Debug)]
pub enum Index {
    Number(i128),
    Slice,
    Other,
}

fn index_of(heap: &Heap, value: Value) -> Index
    ensures { result ≡ index_of heap.now value }
{
    match operand_of(heap, value) {
        Operand::Number(number) => Index::Number(number),
        _ => match object_of(heap, value) {
            Some(Object::Slice(_)) => Index::Slice,
            _ => Index::Other,
        },
    }
}

/// The place of an index among so many items. One below 0 counts from the end.
fn place_of(count: u128, index: i128) -> Option<u128>
    ensures { result ≡ place_of count index }
{
    let distance = index.unsigned_abs();
    if index < 0 {
        return count.checked_sub(distance);
    }
    if distance < count {
        return Some(distance);
    }
    None
}

fn item_or(alloc: Global, item: Option<Value>) -> Result<Content, Memory>
    ensures { IfOk result (λ content. content ≡ item_or item) }
{
    match item {
        Some(item) => Ok(Content::Value(item)),
        None => raise(alloc, INDEX_ERROR, "index out of range"),
    }
}

/// The item of a list or tuple.
fn value_at(alloc: Global, items: &[Value], index: i128) -> Result<Content, Memory>
    ensures { IfOk result (λ content.
        content ≡ value_at items.now (place_of (length items.now) index)) }
{
    match place_of(items.len() as u128, index) {
        Some(place) => item_or(alloc, items.get(place as usize).copied()),
        None => item_or(alloc, None),
    }
}

fn integer_at(alloc: Global, range: Range, index: i128) -> Result<Content, Memory>
    ensures { IfOk result
        (λ content. content ≡ integer_at range (place_of (range_length range) index)) }
{
    match place_of(range_length(range), index) {
        Some(place) => item_or(alloc, range_value(range, place)),
        None => item_or(alloc, None),
    }
}

fn char_or(alloc: Global, c: Option<char>) -> Result<Content, Memory>
    ensures { IfOk result (λ content. content ≡ char_or c) }
{
    match c {
        Some(c) => Ok(Content::New(NewObject::Text(text_of_char(alloc, c)?))),
        None => item_or(alloc, None),
    }
}

/// The character of a text.
fn char_at(alloc: Global, text: &Str, index: i128) -> Result<Content, Memory>
    ensures { IfOk result (λ content.
        content ≡ char_at (chars text.now) (place_of (length (chars text.now)) index)) }
{
    match place_of(text.len() as u128, index) {
        Some(place) => char_or(alloc, text.char_at(place as usize)),
        None => item_or(alloc, None),
    }
}

/// A value has no items by their number or key.
pub fn not_subscriptable(alloc: Global, heap: &Heap, value: Value) -> Result<Content, Memory>
    ensures { IfOk result (λ content. content ≡ not_subscriptable heap.now value) }
{
    use_type_error(alloc, heap, value, "subscriptable")
}

fn item_at(alloc: Global, heap: &Heap, container: Value, index: i128) -> Result<Content, Memory>
    ensures { IfOk result (λ content.
        content ≡ item_at heap.now container index (object_of heap.now container)) }
{
    match object_of(heap, container) {
        Some(Object::List(items)) => value_at(alloc, items.as_slice(), index),
        Some(Object::Tuple(items)) => value_at(alloc, items.as_slice(), index),
        Some(Object::Range(range)) => integer_at(alloc, *range, index),
        Some(Object::Str(text)) => char_at(alloc, text, index),
        Some(Object::Dict(_)) => Ok(Content::Outside(What::Feature)),
        _ => not_subscriptable(alloc, heap, container),
    }
}

fn unindexed(alloc: Global, heap: &Heap, container: Value) -> Result<Content, Memory>
    ensures { IfOk result
        (λ content. content ≡ unindexed heap.now container (object_of heap.now container)) }
{
    match object_of(heap, container) {
        Some(Object::List(_)) => bad_argument(alloc, TYPE_ERROR),
        Some(Object::Tuple(_)) => bad_argument(alloc, TYPE_ERROR),
        Some(Object::Range(_)) => bad_argument(alloc, TYPE_ERROR),
        Some(Object::Str(_)) => bad_argument(alloc, TYPE_ERROR),
        Some(Object::Dict(_)) => Ok(Content::Outside(What::Feature)),
        _ => not_subscriptable(alloc, heap, container),
    }
}

/// `a[b]` (Language Reference 6.3.2), of a list, tuple, range or text by an integer. An IndexError
/// where there is no such item, a TypeError for another container or index. Outside with the cause
/// Feature for slices and dictionaries.
pub fn item_content(
    alloc: Global,
    heap: &Heap,
    container: Value,
    index: Value,
) -> Result<Content, Memory>
    ensures { IfOk result (λ content. content ≡ item_content heap.now container index) }
{
    match index_of(heap, index) {
        Index::Number(index) => item_at(alloc, heap, container, index),
        Index::Slice => Ok(Content::Outside(What::Feature)),
        Index::Other => unindexed(alloc, heap, container),
    }
}
