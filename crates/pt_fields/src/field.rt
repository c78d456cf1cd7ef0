ghost use Rattle.std.specs.Prelude.{◌≡◌, IfOk};
ghost use Rattle.pt_fields.specs.Fields.{converted, format_by, format_content, join_content};
ghost use Rattle.pt_fields.specs.Fields.{laid_content, laid_out, specified};
ghost use Rattle.pt_content.specs.Operands.{operand_of};

use pt_base::{Dup, Memory, Text};
use pt_content::{Content, NewObject, Operand, TYPE_ERROR, bad_argument, operand_of, text_of};
use pt_formats::{FormatValue, format};
use pt_heap::{Heap, Value};
use pt_reprs::{repr_content, str_content};
use pt_text_operations::{answered, joined_content};
use pt_tree::Conversion;
use std::alloc::Global;

/// What a value is converted to.
fn converted(
    alloc: Global,
    conversion: Option<Conversion>,
    heap: &Heap,
    value: Value,
) -> Result<Content, Memory>
    ensures { IfOk result (λ content. content ≡ converted conversion heap.now value) }
{
    match conversion {
        Some(Conversion::Repr) => repr_content(alloc, heap, value),
        Some(Conversion::Str) | None => str_content(alloc, heap, value),
    }
}

/// A number or a text by a spec.
fn laid_out(alloc: Global, spec: &Text, value: &FormatValue) -> Result<Content, Memory>
    ensures { IfOk result (λ content. content ≡ laid_out spec.now value.now) }
{
    answered(alloc, format(alloc, value, spec))
}

/// The text that a value was converted to by a spec. What has no text stays as it is.
fn laid_content(
    alloc: Global,
    heap: &Heap,
    spec: &Text,
    content: Content,
) -> Result<Content, Memory>
    ensures { IfOk result (λ laid. laid ≡ laid_content heap.now spec.now content) }
{
    match content {
        Content::Value(value) => match text_of(heap, value) {
            Some(text) => {
                let text = FormatValue::Str(text.text().dup(alloc)?);
                laid_out(alloc, spec, &text)
            }
            None => Ok(Content::Value(value)),
        },
        Content::New(NewObject::Text(text)) => laid_out(alloc, spec, &FormatValue::Str(text)),
        content => Ok(content),
    }
}

fn specified(
    alloc: Global,
    conversion: Option<Conversion>,
    heap: &Heap,
    value: Value,
    spec: &Text,
) -> Result<Content, Memory>
    ensures { IfOk result (λ content. content
        ≡ specified conversion heap.now value spec.now (operand_of heap.now value)) }
{
    match (conversion, operand_of(heap, value)) {
        (None, Operand::Number(number)) => laid_out(alloc, spec, &FormatValue::Int(number)),
        _ => {
            let content = converted(alloc, conversion, heap, value)?;
            laid_content(alloc, heap, spec, content)
        }
    }
}

fn format_by(
    alloc: Global,
    conversion: Option<Conversion>,
    heap: &Heap,
    value: Value,
    spec: &Text,
) -> Result<Content, Memory>
    ensures { IfOk result (λ content. content ≡ format_by conversion heap.now value spec.now) }
{
    if spec.is_empty() {
        return converted(alloc, conversion, heap, value);
    }
    specified(alloc, conversion, heap, value, spec)
}

/// The text of a replacement field, of its value and the text of its spec, or None where it has none
/// (Language Reference 2.4.3). Where a method of a script is to be asked for the text of the value,
/// that text is laid out by the spec. A TypeError for a spec that is no text; Outside with the cause
/// Format for a spec that isn't listed; else errors as those of `repr` and `str`.
pub fn format_content(
    alloc: Global,
    conversion: Option<Conversion>,
    heap: &Heap,
    value: Value,
    spec: Value,
) -> Result<Content, Memory>
    ensures { IfOk result (λ content. content ≡ format_content conversion heap.now value spec) }
{
    match spec {
        Value::None => converted(alloc, conversion, heap, value),
        _ => match text_of(heap, spec) {
            Some(spec) => format_by(alloc, conversion, heap, value, spec.text()),
            None => bad_argument(alloc, TYPE_ERROR),
        },
    }
}

/// The text of an f-string, of the texts of its parts (Language Reference 2.4.3). A TypeError for a
/// part that is no text, Outside with the cause Length beyond the greatest length of a text.
pub fn join_content(alloc: Global, heap: &Heap, parts: &[Value]) -> Result<Content, Memory>
    ensures { IfOk result (λ content. content ≡ join_content heap.now parts.now) }
{
    joined_content(alloc, heap, &Text::new(alloc), parts)
}
