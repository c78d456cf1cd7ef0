ghost use Rattle.std.specs.Prelude.{◌≡◌, false};
ghost use Rattle.pt_content.specs.declared.content.Content.TheVariants.{Help};
ghost use Rattle.pt_content.specs.Operands.{text_of};
ghost use Rattle.pt_comparisons.specs.Truths.{has_items, inverse_content, is_empty, truth_content};
ghost use Rattle.pt_comparisons.specs.Truths.{truth_value, turned};

use pt_content::{Content, Helper, Operand, operand_of, text_of};
use pt_heap::{Heap, Value};
use pt_views::length_of;

/// A truth value as an answer.
pub fn truth_value(truth: bool) -> Content
    ensures { result ≡ truth_value truth }
{
    Content::Value(Value::Bool(truth))
}

/// Asks a helper.
pub fn asked(helper: Helper) -> Content
    ensures { result ≡ Help helper false }
{
    Content::Help {
        helper,
        inverted: false,
    }
}

/// What isn't so: the other truth value, also of what a helper is asked.
pub fn turned(content: Content) -> Content
    ensures { result ≡ turned content }
{
    match content {
        Content::Value(Value::Bool(truth)) => truth_value(!truth),
        Content::Help { helper, inverted } => Content::Help {
            helper,
            inverted: !inverted,
        },
        other => other,
    }
}

/// Whether a value is no text with characters.
fn is_empty(heap: &Heap, value: Value) -> bool
    ensures { result ≡ is_empty (text_of heap.now value) }
{
    match text_of(heap, value) {
        Some(text) => text.text().is_empty(),
        None => true,
    }
}

/// Whether there are items, or none that are counted.
fn has_items(count: Option<u128>) -> bool
    ensures { result ≡ has_items count }
{
    match count {
        Some(count) => count != 0,
        None => true,
    }
}

/// Whether a value is true (Library Reference, "Truth Value Testing").
pub fn truth_content(heap: &Heap, value: Value) -> Content
    ensures { result ≡ truth_content heap.now value }
{
    if value == Value::None {
        return truth_value(false);
    }
    match operand_of(heap, value) {
        Operand::Number(number) => truth_value(number != 0),
        Operand::Text => truth_value(!is_empty(heap, value)),
        Operand::Instance => asked(Helper::TruthOf),
        Operand::Compound => truth_value(has_items(length_of(heap, value))),
        Operand::Plain => truth_value(true),
    }
}

/// `not` (Language Reference 6.11).
pub fn inverse_content(heap: &Heap, value: Value) -> Content
    ensures { result ≡ inverse_content heap.now value }
{
    turned(truth_content(heap, value))
}
