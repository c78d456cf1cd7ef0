//! What special methods gave.

ghost use Rattle.std.specs.Prelude.{◌≡◌, IfOk};
ghost use Rattle.pt_content.specs.Operands.{operand_of, text_of};
ghost use Rattle.pt_special_methods.specs.Given.{length_given, text_given, truth_given, write_by};

use pt_base::{Memory, Text, What};
use pt_content::{Content, Operand, TYPE_ERROR, VALUE_ERROR, bad_argument, operand_of, text_of};
use pt_heap::{Heap, Value};
use std::alloc::Global;

/// What `__str__` or `__repr__` gave, a TypeError where it isn't a text.
pub fn text_given(alloc: Global, heap: &Heap, value: Value) -> Result<Content, Memory>
    ensures { IfOk result (λ content. content ≡ text_given value (text_of heap.now value)) }
{
    match text_of(heap, value) {
        Some(_) => Ok(Content::Value(value)),
        None => bad_argument(alloc, TYPE_ERROR),
    }
}

/// What `__bool__` gave, a TypeError where it isn't a truth value.
pub fn truth_given(alloc: Global, value: Value) -> Result<Content, Memory>
    ensures { IfOk result (λ content. content ≡ truth_given value) }
{
    match value {
        Value::Bool(truth) => Ok(Content::Value(Value::Bool(truth))),
        _ => bad_argument(alloc, TYPE_ERROR),
    }
}

fn length_by(alloc: Global, operand: Operand) -> Result<Content, Memory>
    ensures { IfOk result (λ content. content ≡ length_given operand) }
{
    match operand {
        Operand::Number(number) if number < 0 => bad_argument(alloc, VALUE_ERROR),
        Operand::Number(number) => Ok(Content::Value(Value::Int(number))),
        Operand::Text | Operand::Instance | Operand::Compound | Operand::Plain => {
            bad_argument(alloc, TYPE_ERROR)
        }
    }
}

/// What `__len__` gave, a TypeError where it isn't an integer, a ValueError where it is negative.
pub fn length_given(alloc: Global, heap: &Heap, value: Value) -> Result<Content, Memory>
    ensures { IfOk result (λ content. content ≡ length_given (operand_of heap.now value)) }
{
    length_by(alloc, operand_of(heap, value))
}

/// Prints a text as it is.
pub fn write_by(alloc: Global, heap: &Heap, value: Value) -> Result<Content, Memory>
    ensures { IfOk result (λ content. content ≡ write_by (text_of heap.now value)) }
{
    match text_of(heap, value) {
        Some(text) => Ok(Content::Print(Text::from_str(alloc, text.text().as_str())?)),
        None => Ok(Content::Outside(What::Feature)),
    }
}
