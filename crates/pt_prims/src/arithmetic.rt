ghost use Rattle.std.specs.Prelude.{◌≡◌, IfOk};
ghost use Rattle.pt_prims.specs.Arithmetic.{binary_content, integer_content, operands_binary};
ghost use Rattle.pt_prims.specs.Arithmetic.{truth_binary, truths_binary, unary_content};

use crate::sequences::sequences_binary;
use pt_base::{BinOp, Memory, UnOp, What};
use pt_content::{
    Content, Helper, Operand, Operator, VALUE_ERROR, ZERO_DIVISION_ERROR, operand_of, raise,
    unary_type_error,
};
use pt_heap::{Heap, Value};
use pt_ints::IntAns;
use pt_methods::asked;
use std::alloc::Global;

/// What an operator answers at integers.
pub fn integer_content(alloc: Global, answer: IntAns) -> Result<Content, Memory>
    ensures { IfOk result (λ content. content ≡ integer_content answer) }
{
    match answer {
        IntAns::Value(number) => Ok(Content::Value(Value::Int(number))),
        IntAns::ZeroDivide => raise(alloc, ZERO_DIVISION_ERROR, "division by zero"),
        IntAns::NegativeShift => raise(alloc, VALUE_ERROR, "negative shift count"),
        IntAns::Float => Ok(Content::Outside(What::Float)),
        IntAns::Range => Ok(Content::Outside(What::Integer)),
    }
}

/// A binary operator at two truth values.
fn truths_binary(alloc: Global, op: BinOp, a: bool, b: bool) -> Result<Content, Memory>
    ensures { IfOk result (λ content. content ≡ truths_binary op a b) }
{
    match op {
        BinOp::BitAnd => Ok(Content::Value(Value::Bool(a && b))),
        BinOp::BitOr => Ok(Content::Value(Value::Bool(a || b))),
        BinOp::BitXor => Ok(Content::Value(Value::Bool(if a { !b } else { b }))),
        _ => integer_content(alloc, pt_ints::binary(op, a as i128, b as i128)),
    }
}

/// A binary operator, by what the operands are.
fn operands_binary(
    alloc: Global,
    op: BinOp,
    heap: &Heap,
    a: Value,
    b: Value,
) -> Result<Content, Memory>
    ensures { IfOk result (λ content. content ≡ operands_binary op heap.now a b) }
{
    match (operand_of(heap, a), operand_of(heap, b)) {
        (Operand::Number(a), Operand::Number(b)) => {
            let answer = pt_ints::binary(op, a, b);
            integer_content(alloc, answer)
        }
        (Operand::Instance, _) | (_, Operand::Instance) => {
            Ok(asked(Helper::BinaryOf(Operator::Binary(op))))
        }
        _ => sequences_binary(alloc, op, heap, a, b),
    }
}

/// A binary operator at a truth value and another operand.
fn truth_binary(alloc: Global, op: BinOp, heap: &Heap, a: bool, b: Value) -> Result<Content, Memory>
    ensures { IfOk result (λ content. content ≡ truth_binary op heap.now a b) }
{
    match b {
        Value::Bool(b) => truths_binary(alloc, op, a, b),
        _ => operands_binary(alloc, op, heap, Value::Bool(a), b),
    }
}

/// `a OP b` (Language Reference 6.5, 6.7 to 6.9).
pub fn binary_content(
    alloc: Global,
    op: BinOp,
    heap: &Heap,
    a: Value,
    b: Value,
) -> Result<Content, Memory>
    ensures { IfOk result (λ content. content ≡ binary_content op heap.now a b) }
{
    match a {
        Value::Bool(a) => truth_binary(alloc, op, heap, a, b),
        _ => operands_binary(alloc, op, heap, a, b),
    }
}

/// `OP a` (Language Reference 6.6).
pub fn unary_content(alloc: Global, op: UnOp, heap: &Heap, a: Value) -> Result<Content, Memory>
    ensures { IfOk result (λ content. content ≡ unary_content op heap.now a) }
{
    match operand_of(heap, a) {
        Operand::Number(a) => integer_content(alloc, pt_ints::unary(op, a)),
        _ => unary_type_error(alloc, op, heap, a),
    }
}
