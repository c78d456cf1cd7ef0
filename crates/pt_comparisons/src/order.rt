//! How values are put in order.

ghost use Rattle.std.specs.Prelude.{◌≡◌, IfOk};
ghost use Rattle.std.specs.Str.{chars};
ghost use Rattle.pt_content.specs.pt_attrs.Look.{object_of};
ghost use Rattle.pt_content.specs.Operands.{operand_of};
ghost use Rattle.pt_comparisons.specs.Equalities.{insides_equality, item_equality};
ghost use Rattle.pt_comparisons.specs.Orders.{first_difference, is_before, item_order, items_order};
ghost use Rattle.pt_comparisons.specs.Orders.{number_order, objects_order, operands_order};
ghost use Rattle.pt_comparisons.specs.Orders.{order_by_difference, text_order};

use crate::equality::{Equality, item_equality};
use crate::membership::equality_answer;
use crate::truth::truth_value;
use pt_base::{CompareOp, Memory};
use pt_content::{Content, Operand, object_of, operand_of, order_type_error};
use pt_heap::{Heap, Object, Value};
use pt_strs::Scan;
use std::alloc::Global;

/// Where two lists of items differ.
#[derive(Clone, Copy, Debug, PartialEq, Eq)]
pub enum Difference {
    /// No two items differ, as far as there are two.
    Nowhere,
    /// The first two items that differ.
    At(Value, Value),
    /// Whether two items differ isn't told.
    Untold(Equality),
}

/// How two numbers compare by `<`, `<=`, `>` or `>=`.
pub(crate) fn number_order(op: CompareOp, a: i128, b: i128) -> bool
    ensures { result ≡ number_order op a b }
{
    match op {
        CompareOp::Less => a < b,
        CompareOp::LessEqual => a <= b,
        CompareOp::Greater => a > b,
        _ => a >= b,
    }
}

/// Whether a text stands before another, by the numbers of characters.
pub fn is_before(a: &str, b: &str) -> bool
    ensures { result ≡ is_before (chars a.now) (chars b.now) }
{
    let mut left = Scan::new(a);
    let mut others = Scan::new(b);
    while let Some(other) = others.next() {
        let Some(c) = left.next() else {
            return true;
        };
        if c != other {
            return c < other;
        }
    }
    false
}

/// How two texts compare by `<`, `<=`, `>` or `>=`.
fn text_order(op: CompareOp, a: &str, b: &str) -> bool
    ensures { result ≡ text_order op (chars a.now) (chars b.now) }
{
    match op {
        CompareOp::Less => is_before(a, b),
        CompareOp::LessEqual => !is_before(b, a),
        CompareOp::Greater => is_before(b, a),
        _ => !is_before(a, b),
    }
}

/// Where two lists of items differ first, in which so many containers may stand inside one another.
fn first_difference(heap: &Heap, a: &[Value], b: &[Value], depth: u32) -> Difference
    ensures { result
        ≡ first_difference (item_equality (insides_equality heap.now depth) heap.now) a.now b.now }
{
    let mut others = b;
    for item in a {
        let Some((other, rest)) = others.split_first() else {
            return Difference::Nowhere;
        };
        match item_equality(heap, *item, *other, depth) {
            Equality::Told(true) => others = rest,
            Equality::Told(false) => return Difference::At(*item, *other),
            untold => return Difference::Untold(untold),
        }
    }
    Difference::Nowhere
}

#[cycle(orders)]
fn objects_order(
    alloc: Global,
    op: CompareOp,
    heap: &Heap,
    a: Value,
    b: Value,
    depth: u32,
) -> Result<Content, Memory>
    ensures { IfOk result (λ content. content ≡ objects_order op (items_order op heap.now depth)
        heap.now a b (object_of heap.now a) (object_of heap.now b)) }
{
    match (object_of(heap, a), object_of(heap, b)) {
        (Some(Object::Str(a)), Some(Object::Str(b))) => {
            Ok(truth_value(text_order(op, a.text().as_str(), b.text().as_str())))
        }
        (Some(Object::List(a)), Some(Object::List(b))) => {
            items_order(alloc, op, heap, a.as_slice(), b.as_slice(), depth)
        }
        (Some(Object::Tuple(a)), Some(Object::Tuple(b))) => {
            items_order(alloc, op, heap, a.as_slice(), b.as_slice(), depth)
        }
        (Some(Object::Slice(a)), Some(Object::Slice(b))) => items_order(
            alloc,
            op,
            heap,
            &[a.start, a.stop, a.step],
            &[b.start, b.stop, b.step],
            depth,
        ),
        _ => order_type_error(alloc, op, heap, a, b),
    }
}

/// The order of two values, in which so many containers may stand inside one another.
#[cycle(orders)]
pub(crate) fn item_order(
    alloc: Global,
    op: CompareOp,
    heap: &Heap,
    a: Value,
    b: Value,
    depth: u32,
) -> Result<Content, Memory>
    ensures { IfOk result (λ content.
        content ≡ item_order op (items_order op heap.now depth) heap.now a b) }
{
    match (operand_of(heap, a), operand_of(heap, b)) {
        (Operand::Number(a), Operand::Number(b)) => Ok(truth_value(number_order(op, a, b))),
        _ => objects_order(alloc, op, heap, a, b, depth),
    }
}

/// The order of two lists of items, by where they differ, of items in which so many containers may
/// stand inside one another.
#[cycle(orders)]
fn order_by_difference(
    alloc: Global,
    op: CompareOp,
    heap: &Heap,
    a: &[Value],
    b: &[Value],
    depth: u32,
    difference: Difference,
) -> Result<Content, Memory>
    ensures { IfOk result (λ content. content
        ≡ order_by_difference op (item_order op (items_order op heap.now depth) heap.now) a.now b.now
        difference) }
{
    match difference {
        Difference::At(a, b) => item_order(alloc, op, heap, a, b, depth),
        Difference::Nowhere => {
            Ok(truth_value(number_order(op, a.len() as i128, b.len() as i128)))
        }
        Difference::Untold(untold) => equality_answer(alloc, untold),
    }
}

/// The order of two lists of items, in which so many containers may stand inside one another, they
/// among them.
#[cycle(orders)]
fn items_order(
    alloc: Global,
    op: CompareOp,
    heap: &Heap,
    a: &[Value],
    b: &[Value],
    depth: u32,
) -> Result<Content, Memory>
    ensures { IfOk result (λ content. content ≡ items_order op heap.now depth a.now b.now) }
{
    if depth == 0 {
        return equality_answer(alloc, Equality::Deep);
    }
    let difference = first_difference(heap, a, b, depth - 1);
    order_by_difference(alloc, op, heap, a, b, depth - 1, difference)
}
