//! Which values are the same, and which are equal.

ghost use Rattle.std.specs.Prelude.{◌≡◌};
ghost use Rattle.std.specs.Option.{option_copied};
ghost use Rattle.pt_content.specs.pt_attrs.Look.{object_of};
ghost use Rattle.pt_comparisons.specs.Equalities.{all_equal, any_equal, entries_equality, equality};
ghost use Rattle.pt_comparisons.specs.Equalities.{insides_equality, is_same, item_equality};
ghost use Rattle.pt_comparisons.specs.Equalities.{items_equality, objects_equality, operands_equality};
ghost use Rattle.pt_comparisons.specs.Equalities.{same_objects, same_range, same_text, values_equal};
ghost use Rattle.pt_content.specs.Operands.{operand_of};

use pt_base::ObjId;
use pt_content::{Operand, object_of, operand_of, text_at};
use pt_heap::{Dict, Heap, Object, Range, Str, Value};
use pt_views::{range_length, same_items};

/// How many containers may stand inside one another.
pub(crate) const DEPTH_LIMIT: u32 = 1000;

/// Whether two values are equal.
#[derive(Clone, Copy, Debug, PartialEq, Eq)]
pub enum Equality {
    Told(bool),
    /// More than 1,000 containers stand inside one another.
    Deep,
    /// An instance of a script's class is met, whose methods aren't asked.
    Feature,
}

/// Whether these are two texts with the same characters.
fn same_text(a: Option<&Str>, b: Option<&Str>) -> bool
    ensures { result ≡ same_text (option_copied a.entry) (option_copied b.entry) }
{
    match (a, b) {
        (Some(a), Some(b)) => a.text().is(b.text().as_str()),
        _ => false,
    }
}

/// Whether it is one object, or they are two texts with the same characters.
fn same_objects(heap: &Heap, a: ObjId, b: ObjId) -> bool
    ensures { result ≡ same_objects heap.now a b }
{
    a.0 == b.0 || same_text(text_at(heap, a), text_at(heap, b))
}

/// `a is b` (Language Reference 6.10.3).
pub fn is_same(heap: &Heap, a: Value, b: Value) -> bool
    ensures { result ≡ is_same heap.now a b }
{
    match (a, b) {
        (Value::None, Value::None) => true,
        (Value::Bool(a), Value::Bool(b)) => if a { b } else { !b },
        (Value::Int(a), Value::Int(b)) => a == b,
        (Value::Ellipsis, Value::Ellipsis) => true,
        (Value::NotImplemented, Value::NotImplemented) => true,
        (Value::Obj(a), Value::Obj(b)) => same_objects(heap, a, b),
        _ => false,
    }
}

/// Whether two ranges have the same integers.
fn same_range(a: Range, b: Range) -> bool
    ensures { result ≡ same_range a b }
{
    let count = range_length(a);
    if count != range_length(b) {
        return false;
    }
    count == 0 || (a.start == b.start && (count == 1 || a.step == b.step))
}

#[cycle(equalities)]
fn objects_equality(heap: &Heap, a: Value, b: Value, depth: u32) -> Equality
    ensures { result ≡ objects_equality (insides_equality heap.now depth) heap.now a b
        (object_of heap.now a) (object_of heap.now b) }
{
    match (object_of(heap, a), object_of(heap, b)) {
        (Some(Object::List(a)), Some(Object::List(b))) => {
            items_equality(heap, a.as_slice(), b.as_slice(), depth)
        }
        (Some(Object::Tuple(a)), Some(Object::Tuple(b))) => {
            items_equality(heap, a.as_slice(), b.as_slice(), depth)
        }
        (Some(Object::Range(a)), Some(Object::Range(b))) => Equality::Told(same_range(*a, *b)),
        (Some(Object::Dict(a)), Some(Object::Dict(b))) => entries_equality(heap, a, b, depth),
        (Some(Object::Set(a)), Some(Object::Set(b))) => Equality::Told(same_items(a, b)),
        (Some(Object::Slice(a)), Some(Object::Slice(b))) => items_equality(
            heap,
            &[a.start, a.stop, a.step],
            &[b.start, b.stop, b.step],
            depth,
        ),
        _ => Equality::Told(is_same(heap, a, b)),
    }
}

/// Whether two items are equal, in which so many containers may stand inside one another.
#[cycle(equalities)]
pub(crate) fn item_equality(heap: &Heap, a: Value, b: Value, depth: u32) -> Equality
    ensures { result ≡ item_equality (insides_equality heap.now depth) heap.now a b }
{
    if is_same(heap, a, b) {
        return Equality::Told(true);
    }
    match (operand_of(heap, a), operand_of(heap, b)) {
        (Operand::Number(a), Operand::Number(b)) => Equality::Told(a == b),
        (Operand::Instance, _) | (_, Operand::Instance) => Equality::Feature,
        _ => objects_equality(heap, a, b, depth),
    }
}

/// Whether items are equal, from left to right as far as there are two.
#[cycle(equalities)]
fn all_equal(heap: &Heap, a: &[Value], b: &[Value], depth: u32) -> Equality
    ensures { result
        ≡ all_equal (item_equality (insides_equality heap.now depth) heap.now) a.now b.now }
{
    let mut others = b;
    for item in a {
        let Some((other, rest)) = others.split_first() else {
            return Equality::Told(true);
        };
        match item_equality(heap, *item, *other, depth) {
            Equality::Told(true) => others = rest,
            told => return told,
        }
    }
    Equality::Told(true)
}

/// Whether lists of items are equal, in which so many containers may stand inside one another, they
/// among them.
#[cycle(equalities)]
fn items_equality(heap: &Heap, a: &[Value], b: &[Value], depth: u32) -> Equality
    ensures { result ≡ items_equality heap.now depth a.now b.now }
{
    if depth == 0 {
        return Equality::Deep;
    }
    if a.len() != b.len() {
        return Equality::Told(false);
    }
    all_equal(heap, a, b, depth - 1)
}

/// Whether the values of a dictionary are equal to those behind the same keys of another.
#[cycle(equalities)]
fn values_equal(heap: &Heap, a: &Dict, b: &Dict, depth: u32) -> Equality
    ensures { result
        ≡ values_equal (item_equality (insides_equality heap.now depth) heap.now) a.now b.now }
{
    let mut left = a.entries();
    while let Some(entry) = left.next() {
        let Some(other) = b.get(entry.key) else {
            return Equality::Told(false);
        };
        match item_equality(heap, entry.value, other, depth) {
            Equality::Told(true) => {}
            told => return told,
        }
    }
    Equality::Told(true)
}

/// Whether two dictionaries are equal, in which so many containers may stand inside one another,
/// they among them.
#[cycle(equalities)]
fn entries_equality(heap: &Heap, a: &Dict, b: &Dict, depth: u32) -> Equality
    ensures { result ≡ entries_equality heap.now depth a.now b.now }
{
    if depth == 0 {
        return Equality::Deep;
    }
    if a.len() == b.len() {
        return values_equal(heap, a, b, depth - 1);
    }
    Equality::Told(false)
}

/// Whether two values are equal (Language Reference 6.10.1): numbers by what they stand for, lists,
/// tuples, sets, dictionaries and slices by what stands in them, ranges by their integers, all else by
/// object.
pub fn value_equality(heap: &Heap, a: Value, b: Value) -> Equality
    ensures { result ≡ equality heap.now a b }
{
    item_equality(heap, a, b, DEPTH_LIMIT)
}

/// Whether one of some values is equal to another.
pub fn any_equal(heap: &Heap, sought: Value, values: &[Value]) -> Equality
    ensures { result ≡ any_equal heap.now sought values.now }
{
    for value in values {
        match value_equality(heap, *value, sought) {
            Equality::Told(false) => {}
            told => return told,
        }
    }
    Equality::Told(false)
}
