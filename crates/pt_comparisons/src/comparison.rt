ghost use Rattle.std.specs.Prelude.{◌≡◌, IfOk};
ghost use Rattle.pt_content.specs.pt_attrs.Look.{object_of};
ghost use Rattle.pt_content.specs.Operands.{operand_of};
ghost use Rattle.pt_comparisons.specs.Comparisons.{are_sequences, compared_by, comparing_helper};
ghost use Rattle.pt_comparisons.specs.Comparisons.{comparison_content, equal_by, helped_or};
ghost use Rattle.pt_comparisons.specs.Comparisons.{objects_equal, objects_ordered, order_by, plain_by};

use crate::equality::{DEPTH_LIMIT, is_same, value_equality};
use crate::membership::{equality_answer, membership_content};
use crate::order::{item_order, number_order};
use crate::truth::{asked, truth_value, turned};
use pt_base::{CompareOp, Memory, What};
use pt_content::{Content, Helper, Operand, Operator, object_of, operand_of};
use pt_heap::{Heap, Object, Value};
use pt_reprs::need_help;
use std::alloc::Global;

/// Whether these are two lists, or two tuples.
fn are_sequences(heap: &Heap, a: Value, b: Value) -> bool
    ensures { result ≡ are_sequences (object_of heap.now a) (object_of heap.now b) }
{
    match (object_of(heap, a), object_of(heap, b)) {
        (Some(Object::List(_)), Some(Object::List(_))) => true,
        (Some(Object::Tuple(_)), Some(Object::Tuple(_))) => true,
        _ => false,
    }
}

/// The helper that compares two containers of one kind.
fn comparing_helper(heap: &Heap, a: Value, b: Value) -> Option<Helper>
    ensures { result ≡ comparing_helper (object_of heap.now a) (object_of heap.now b) }
{
    match (object_of(heap, a), object_of(heap, b)) {
        (Some(Object::List(_)), Some(Object::List(_))) => Some(Helper::SameOf),
        (Some(Object::Tuple(_)), Some(Object::Tuple(_))) => Some(Helper::SameOf),
        (Some(Object::Dict(_)), Some(Object::Dict(_))) => Some(Helper::PairsOf),
        _ => None,
    }
}

fn objects_equal(alloc: Global, heap: &Heap, a: Value, b: Value) -> Result<Content, Memory>
    ensures { IfOk result (λ content. content ≡ objects_equal heap.now a b) }
{
    if let Some(helper) = comparing_helper(heap, a, b)
        && need_help(alloc, heap, &[a, b])?
    {
        return Ok(asked(helper));
    }
    equality_answer(alloc, value_equality(heap, a, b))
}

/// `a == b`, of no instance of a script's class.
fn equal(alloc: Global, heap: &Heap, a: Value, b: Value) -> Result<Content, Memory>
    ensures { IfOk result (λ content. content
        ≡ equal_by heap.now a b (operand_of heap.now a) (operand_of heap.now b)) }
{
    match (operand_of(heap, a), operand_of(heap, b)) {
        (Operand::Number(a), Operand::Number(b)) => Ok(truth_value(a == b)),
        _ => objects_equal(alloc, heap, a, b),
    }
}

/// `a < b`, and the other orders, of values of which one is no number.
fn objects_ordered(
    alloc: Global,
    op: CompareOp,
    heap: &Heap,
    a: Value,
    b: Value,
) -> Result<Content, Memory>
    ensures { IfOk result (λ content. content ≡ objects_ordered op heap.now a b) }
{
    if are_sequences(heap, a, b) && need_help(alloc, heap, &[a, b])? {
        return Ok(Content::Outside(What::Feature));
    }
    item_order(alloc, op, heap, a, b, DEPTH_LIMIT)
}

/// `a < b`, and the other orders, of no instance of a script's class.
fn order(alloc: Global, op: CompareOp, heap: &Heap, a: Value, b: Value) -> Result<Content, Memory>
    ensures { IfOk result (λ content. content
        ≡ order_by op heap.now a b (operand_of heap.now a) (operand_of heap.now b)) }
{
    match (operand_of(heap, a), operand_of(heap, b)) {
        (Operand::Number(a), Operand::Number(b)) => Ok(truth_value(number_order(op, a, b))),
        _ => objects_ordered(alloc, op, heap, a, b),
    }
}

/// A comparison by value of operands of which none is an instance of a script's class.
fn plain(alloc: Global, op: CompareOp, heap: &Heap, a: Value, b: Value) -> Result<Content, Memory>
    ensures { IfOk result (λ content. content
        ≡ plain_by op heap.now a b (operand_of heap.now a) (operand_of heap.now b)) }
{
    match op {
        CompareOp::Equal => equal(alloc, heap, a, b),
        CompareOp::NotEqual => Ok(turned(equal(alloc, heap, a, b)?)),
        _ => order(alloc, op, heap, a, b),
    }
}

/// A comparison by value. An instance of a script's class is asked.
fn compared(
    alloc: Global,
    op: CompareOp,
    heap: &Heap,
    a: Value,
    b: Value,
) -> Result<Content, Memory>
    ensures { IfOk result (λ content. content
        ≡ compared_by op heap.now a b (operand_of heap.now a) (operand_of heap.now b)) }
{
    match (operand_of(heap, a), operand_of(heap, b)) {
        (Operand::Instance, _) | (_, Operand::Instance) => {
            Ok(asked(Helper::BinaryOf(Operator::Compare(op))))
        }
        _ => plain(alloc, op, heap, a, b),
    }
}

/// A comparison (Language Reference 6.10).
pub fn comparison_content(
    alloc: Global,
    op: CompareOp,
    heap: &Heap,
    a: Value,
    b: Value,
) -> Result<Content, Memory>
    ensures { IfOk result (λ content. content ≡ comparison_content op heap.now a b) }
{
    match op {
        CompareOp::In => membership_content(alloc, heap, a, b),
        CompareOp::NotIn => Ok(turned(membership_content(alloc, heap, a, b)?)),
        CompareOp::Is => Ok(truth_value(is_same(heap, a, b))),
        CompareOp::IsNot => Ok(truth_value(!is_same(heap, a, b))),
        _ => compared(alloc, op, heap, a, b),
    }
}
