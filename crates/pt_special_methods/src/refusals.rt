//! Operands that no special method takes.

ghost use Rattle.std.specs.Prelude.{◌≡◌, IfOk};
ghost use Rattle.pt_content.specs.Operands.{text_of};
ghost use Rattle.pt_special_methods.specs.Refusals.{is_order, no_length, operands_refused};
ghost use Rattle.pt_special_methods.specs.Refusals.{refuse, refused, refused_by};

use pt_base::{Memory, What};
use pt_content::{
    Content, TYPE_ERROR, class_name, error_of_two, sentence, text_of, use_type_error,
};
use pt_heap::{Heap, Value};
use std::alloc::Global;

/// Whether an operator is one of order.
fn is_order(sign: &str) -> bool
    ensures { result ≡ is_order sign.now }
{
    sign == "<" || sign == "<=" || sign == ">" || sign == ">="
}

/// What an operator says of two operands, by the names of their classes.
fn operands_refused<'a>(
    alloc: Global,
    sign: &'a str,
    first: &'a str,
    second: &'a str,
) -> Result<Content, Memory>
    ensures { IfOk result (λ content.
        content ≡ operands_refused sign.now first.now second.now) }
{
    if is_order(sign) {
        let behind = "' not supported between instances of '";
        return error_of_two(alloc, "'", sign, behind, first, second);
    }
    let before = "unsupported operand type(s) for ";
    error_of_two(alloc, before, sign, ": '", first, second)
}

/// A value without a length.
fn no_length(alloc: Global, heap: &Heap, value: Value) -> Result<Content, Memory>
    ensures { IfOk result (λ content. content ≡ no_length heap.now value) }
{
    let parts = [
        "object of type '",
        class_name(heap, value),
        "' has no len()",
    ];
    let text = sentence(alloc, &parts)?;
    Ok(Content::Raise {
        class: TYPE_ERROR,
        text,
    })
}

fn refused_by(alloc: Global, heap: &Heap, sign: &str, a: Value, b: Value) -> Result<Content, Memory>
    ensures { IfOk result (λ content. content ≡ refused_by sign.now heap.now a b) }
{
    if sign == "iter" {
        return use_type_error(alloc, heap, a, "iterable");
    }
    if sign == "next" {
        return use_type_error(alloc, heap, a, "an iterator");
    }
    if sign == "len" {
        return no_length(alloc, heap, a);
    }
    operands_refused(alloc, sign, class_name(heap, a), class_name(heap, b))
}

fn refused(alloc: Global, heap: &Heap, sign: Value, a: Value, b: Value) -> Result<Content, Memory>
    ensures { IfOk result (λ content.
        content ≡ refused (text_of heap.now sign) heap.now a b) }
{
    match text_of(heap, sign) {
        Some(sign) => refused_by(alloc, heap, sign.text().as_str(), a, b),
        None => Ok(Content::Outside(What::Feature)),
    }
}

/// Raises the TypeError of an operator, by its sign, or of `iter`, `next` or `len`, of operands
/// that it doesn't take.
pub fn refuse(alloc: Global, args: &[Value], heap: &Heap) -> Result<Content, Memory>
    ensures { IfOk result (λ content. content ≡ refuse args.now heap.now) }
{
    match args {
        [sign, a, b] => refused(alloc, heap, *sign, *a, *b),
        _ => Ok(Content::Outside(What::Feature)),
    }
}
