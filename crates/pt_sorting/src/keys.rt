//! Keys and their order.

ghost use Rattle.std.specs.Prelude.{◌≡◌};
ghost use Rattle.pt_content.specs.pt_attrs.Look.{object_of};
ghost use Rattle.pt_content.specs.Operands.{text_of};
ghost use Rattle.pt_sorting.specs.declared.keys.Kind.TheVariants.{Other};
ghost use Rattle.pt_sorting.specs.Keys.{are_alike, are_plain, common_kind, is_plain, items_of};
ghost use Rattle.pt_sorting.specs.Keys.{key_before, kind_by, kind_in, kind_of, number_in};
ghost use Rattle.pt_sorting.specs.Keys.{number_of, plain_before, plain_kind, row_before};
ghost use Rattle.pt_sorting.specs.Keys.{rows_alike, text_before};

use pt_comparisons::is_before;
use pt_content::{Operand, object_of, operand_of, text_of};
use pt_heap::{Heap, Object, Value};

/// A kind of key.
#[derive(Clone, Copy, Debug, PartialEq, Eq)]
pub enum Kind {
    Number,
    Text,
    /// A tuple of numbers and texts.
    Row,
    /// No key.
    Other,
}

fn kind_by(operand: Operand) -> Kind
    ensures { result ≡ kind_by operand }
{
    match operand {
        Operand::Number(_) => Kind::Number,
        Operand::Text => Kind::Text,
        _ => Kind::Other,
    }
}

/// The kind of a number or a text.
fn plain_kind(heap: &Heap, value: Value) -> Kind
    ensures { result ≡ plain_kind heap.now value }
{
    kind_by(operand_of(heap, value))
}

fn is_plain(kind: Kind) -> bool
    ensures { result ≡ is_plain kind }
{
    match kind {
        Kind::Other => false,
        Kind::Number | Kind::Text | Kind::Row => true,
    }
}

/// Whether each value is a number or a text.
fn are_plain(heap: &Heap, values: &[Value]) -> bool
    ensures { result ≡ are_plain heap.now values.now }
{
    for value in values {
        if !is_plain(plain_kind(heap, *value)) {
            return false;
        }
    }
    true
}

/// The items of a tuple.
fn items_of(heap: &Heap, value: Value) -> &[Value]
    ensures { result.now ≡ items_of heap.now value }
{
    match object_of(heap, value) {
        Some(Object::Tuple(items)) => items.as_slice(),
        _ => &[],
    }
}

/// The kind of what is no number and no text.
fn row_kind(heap: &Heap, value: Value) -> Kind
    ensures { result ≡ kind_in heap.now Other (object_of heap.now value) }
{
    match object_of(heap, value) {
        Some(Object::Tuple(items)) => {
            if are_plain(heap, items.as_slice()) {
                Kind::Row
            } else {
                Kind::Other
            }
        }
        _ => Kind::Other,
    }
}

/// The kind of key that a value is.
pub fn kind_of(heap: &Heap, value: Value) -> Kind
    ensures { result ≡ kind_of heap.now value }
{
    match plain_kind(heap, value) {
        Kind::Number => Kind::Number,
        Kind::Text => Kind::Text,
        Kind::Row => Kind::Row,
        Kind::Other => row_kind(heap, value),
    }
}

/// The kind of the first, which is that of all where they have an order.
pub(crate) fn common_kind(heap: &Heap, keys: &[Value]) -> Kind
    ensures { result ≡ common_kind heap.now keys.now }
{
    match keys.first() {
        Some(key) => kind_of(heap, *key),
        None => Kind::Other,
    }
}

fn are_alike(first: Kind, second: Kind) -> bool
    ensures { result ≡ are_alike first second }
{
    match (first, second) {
        (Kind::Number, Kind::Number) | (Kind::Text, Kind::Text) => true,
        _ => false,
    }
}

/// Whether two tuples are as long and alike in each place.
fn rows_alike(heap: &Heap, first: &[Value], second: &[Value]) -> bool
    ensures { result ≡ rows_alike heap.now first.now second.now }
{
    let mut others = second;
    for item in first {
        let Some((other, rest)) = others.split_first() else {
            return false;
        };
        if !are_alike(plain_kind(heap, *item), plain_kind(heap, *other)) {
            return false;
        }
        others = rest;
    }
    others.is_empty()
}

/// Whether two tuples have an order.
pub(crate) fn are_rows_alike(heap: &Heap, first: Value, second: Value) -> bool
    ensures { result ≡ rows_alike heap.now (items_of heap.now first) (items_of heap.now second) }
{
    rows_alike(heap, items_of(heap, first), items_of(heap, second))
}

fn number_in(operand: Operand) -> Option<i128>
    ensures { result ≡ number_in operand }
{
    match operand {
        Operand::Number(number) => Some(number),
        _ => None,
    }
}

/// The number that a value is.
fn number_of(heap: &Heap, value: Value) -> Option<i128>
    ensures { result ≡ number_of heap.now value }
{
    number_in(operand_of(heap, value))
}

/// Whether a text stands before another, behind what is no text.
fn text_before(heap: &Heap, first: Value, second: Value) -> bool
    ensures { result ≡ text_before (text_of heap.now first) (text_of heap.now second) }
{
    match (text_of(heap, first), text_of(heap, second)) {
        (Some(first), Some(second)) => is_before(first.text().as_str(), second.text().as_str()),
        (None, Some(_)) => true,
        (Some(_), None) | (None, None) => false,
    }
}

/// Whether a number or a text stands before another.
fn plain_before(heap: &Heap, first: Value, second: Value) -> bool
    ensures { result ≡ plain_before heap.now first second }
{
    match (number_of(heap, first), number_of(heap, second)) {
        (Some(first), Some(second)) => first < second,
        (Some(_), None) => true,
        (None, Some(_)) => false,
        (None, None) => text_before(heap, first, second),
    }
}

/// Whether a tuple stands before another.
fn row_before(heap: &Heap, first: &[Value], second: &[Value]) -> bool
    ensures { result ≡ row_before heap.now first.now second.now }
{
    let mut others = second;
    for item in first {
        let Some((other, rest)) = others.split_first() else {
            return false;
        };
        if plain_before(heap, *item, *other) {
            return true;
        }
        if plain_before(heap, *other, *item) {
            return false;
        }
        others = rest;
    }
    !others.is_empty()
}

/// Whether a key of a kind stands before another.
pub(crate) fn key_before(heap: &Heap, kind: Kind, first: Value, second: Value) -> bool
    ensures { result ≡ key_before kind heap.now first second }
{
    match kind {
        Kind::Row => row_before(heap, items_of(heap, first), items_of(heap, second)),
        Kind::Number | Kind::Text | Kind::Other => plain_before(heap, first, second),
    }
}
