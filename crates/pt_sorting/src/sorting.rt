//! Values in the order of their keys.

ghost use Rattle.std.specs.Prelude.{◌≡◌, [], IfOk, map};
ghost use Rattle.std.specs.Ordering.{is_lt};
ghost use Rattle.pt_sorting.specs.Keys.{key_before};
ghost use Rattle.pt_sorting.specs.Sorting.{fault_behind, fault_of, first_fault, keyed, sorted};
ghost use Rattle.pt_sorting.specs.Sorting.{sorted_behind, sorted_content, stands_before};

use crate::keys::{Kind, are_rows_alike, common_kind, key_before, kind_of};
use pt_base::{CompareOp, Memory, Seq, What};
use pt_comparisons::list_content;
use pt_content::{Content, order_type_error};
use pt_heap::{Heap, Value};
use std::alloc::Global;
use std::cmp::Ordering;

/// What is wrong with a key behind another.
fn fault_of(
    alloc: Global,
    heap: &Heap,
    before: Value,
    value: Value,
) -> Result<Option<Content>, Memory>
    ensures { IfOk result (λ fault. fault ≡ fault_of heap.now before value) }
{
    match (kind_of(heap, before), kind_of(heap, value)) {
        (Kind::Number, Kind::Number) | (Kind::Text, Kind::Text) => Ok(None),
        (Kind::Number, Kind::Text) | (Kind::Text, Kind::Number) => {
            Ok(Some(order_type_error(alloc, CompareOp::Less, heap, value, before)?))
        }
        (Kind::Row, Kind::Row) => {
            if are_rows_alike(heap, before, value) {
                Ok(None)
            } else {
                Ok(Some(Content::Outside(What::Sort)))
            }
        }
        _ => Ok(Some(Content::Outside(What::Sort))),
    }
}

/// What is wrong with the first key that isn't like the one before it.
fn fault_behind(
    alloc: Global,
    heap: &Heap,
    before: Value,
    keys: &[Value],
) -> Result<Option<Content>, Memory>
    ensures { IfOk result (λ fault. fault ≡ fault_behind heap.now before keys.now) }
{
    let mut last = before;
    for key in keys {
        if let Some(fault) = fault_of(alloc, heap, last, *key)? {
            return Ok(Some(fault));
        }
        last = *key;
    }
    Ok(None)
}

/// What keeps keys from having an order.
fn first_fault(alloc: Global, heap: &Heap, keys: &[Value]) -> Result<Option<Content>, Memory>
    ensures { IfOk result (λ fault. fault ≡ first_fault heap.now keys.now) }
{
    let Some((first, rest)) = keys.split_first() else {
        return Ok(None);
    };
    match kind_of(heap, *first) {
        Kind::Other => Ok(Some(Content::Outside(What::Sort))),
        _ => fault_behind(alloc, heap, *first, rest),
    }
}

/// Keys with what they are of, as far as there are both.
fn keyed(alloc: Global, keys: &[Value], values: &[Value]) -> Result<Vec<(Value, Value)>, Memory>
    ensures { IfOk result (λ pairs. pairs.items ≡ keyed keys.now values.now) }
{
    let mut pairs = Vec::new(alloc);
    let mut others = values;
    for key in keys {
        let Some((value, rest)) = others.split_first() else {
            return Ok(pairs);
        };
        pairs.push((*key, *value))?;
        others = rest;
    }
    Ok(pairs)
}

/// Which of two keys stands before the other.
fn key_order(heap: &Heap, kind: Kind, first: Value, second: Value) -> Ordering
    ensures { is_lt result ≡ key_before kind heap.now first second }
{
    if key_before(heap, kind, first, second) {
        return Ordering::Less;
    }
    if key_before(heap, kind, second, first) {
        return Ordering::Greater;
    }
    Ordering::Equal
}

/// The same in rising order or in falling one.
fn order_of(heap: &Heap, kind: Kind, falling: bool, first: Value, second: Value) -> Ordering
    ensures { is_lt result ≡ stands_before heap.now kind falling first second }
{
    if falling {
        key_order(heap, kind, second, first)
    } else {
        key_order(heap, kind, first, second)
    }
}

/// Pairs in the order of their keys.
fn put_in_order(
    heap: &Heap,
    kind: Kind,
    falling: bool,
    pairs: Vec<(Value, Value)>,
) -> Result<Vec<(Value, Value)>, Memory>
    ensures { IfOk result (λ sorted.
        sorted.items ≡ sorted_behind heap.now kind falling [] pairs.items) }
{
    let mut pairs = pairs;
    pairs.sort_by(|first, second| order_of(heap, kind, falling, first.0, second.0))?;
    Ok(pairs)
}

/// What keys are of.
fn values_of(alloc: Global, pairs: &[(Value, Value)]) -> Result<Seq<Value>, Memory>
    ensures { IfOk result (λ values. values ≡ map (λ p. p.1) pairs.now) }
{
    let mut values = Seq::new(alloc);
    for pair in pairs {
        values.push(pair.1)?;
    }
    Ok(values)
}

/// The values of pairs in the order of their keys.
fn sorted(
    alloc: Global,
    heap: &Heap,
    kind: Kind,
    falling: bool,
    pairs: Vec<(Value, Value)>,
) -> Result<Seq<Value>, Memory>
    ensures { IfOk result (λ values. values ≡ sorted heap.now kind falling pairs.items) }
{
    let pairs = put_in_order(heap, kind, falling, pairs)?;
    values_of(alloc, pairs.as_slice())
}

/// A new list of values in the order of their keys. A TypeError for a number beside a text, Outside
/// with the cause Sort for keys that have no order.
pub fn sorted_content(
    alloc: Global,
    heap: &Heap,
    falling: bool,
    values: &[Value],
    keys: &[Value],
) -> Result<Content, Memory>
    ensures { IfOk result (λ content.
        content ≡ sorted_content heap.now falling values.now keys.now) }
{
    if let Some(fault) = first_fault(alloc, heap, keys)? {
        return Ok(fault);
    }
    let pairs = keyed(alloc, keys, values)?;
    let values = sorted(alloc, heap, common_kind(heap, keys), falling, pairs)?;
    Ok(list_content(values))
}
