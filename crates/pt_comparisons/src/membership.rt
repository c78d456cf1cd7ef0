ghost use Rattle.std.specs.Prelude.{◌≡◌, IfOk};
ghost use Rattle.std.specs.Option.{option_copied};
ghost use Rattle.pt_content.specs.pt_attrs.Look.{object_of};
ghost use Rattle.pt_content.specs.Operands.{operand_of, text_of};
ghost use Rattle.pt_comparisons.specs.Membership.{among, contained, equality_answer, in_range, in_text};
ghost use Rattle.pt_comparisons.specs.Membership.{membership_content};

use crate::equality::{Equality, any_equal};
use crate::truth::{asked, truth_value};
use crate::view::in_view;
use pt_base::{Memory, What};
use pt_content::{
    Content, Helper, Operand, RECURSION_ERROR, TYPE_ERROR, bad_argument, object_of, operand_of,
    raise, text_of,
};
use pt_heap::{Heap, Object, Range, Str, Value};
use pt_reprs::need_help;
use pt_strs::find;
use pt_views::{has_integer, has_item_content, has_key_content};
use std::alloc::Global;

/// What is answered of values that were compared.
pub fn equality_answer(alloc: Global, equality: Equality) -> Result<Content, Memory>
    ensures { IfOk result (λ content. content ≡ equality_answer equality) }
{
    match equality {
        Equality::Told(truth) => Ok(truth_value(truth)),
        Equality::Deep => raise(alloc, RECURSION_ERROR, "too many activations"),
        Equality::Feature => Ok(Content::Outside(What::Feature)),
    }
}

/// Whether a text is a part of another.
fn in_text(alloc: Global, part: Option<&Str>, text: &Str) -> Result<Content, Memory>
    ensures { IfOk result (λ content. content ≡ in_text (option_copied part.entry) text.now) }
{
    match part {
        Some(part) => Ok(truth_value(find(text.text(), part.text()).is_some())),
        None => bad_argument(alloc, TYPE_ERROR),
    }
}

fn in_range(sought: Operand, range: Range) -> Content
    ensures { result ≡ in_range sought range }
{
    match sought {
        Operand::Number(number) => truth_value(has_integer(range, number)),
        Operand::Instance => Content::Outside(What::Feature),
        Operand::Text | Operand::Compound | Operand::Plain => truth_value(false),
    }
}

/// Whether a value is equal to an item of a container.
fn among(
    alloc: Global,
    heap: &Heap,
    sought: Value,
    container: Value,
    items: &[Value],
) -> Result<Content, Memory>
    ensures { IfOk result (λ content. content ≡ among heap.now sought container items.now) }
{
    if need_help(alloc, heap, &[sought, container])? {
        return Ok(asked(Helper::InOf));
    }
    equality_answer(alloc, any_equal(heap, sought, items))
}

/// `a in b` (Language Reference 6.10.2), of a text, a range, a list, a tuple, a dictionary, a set or
/// a view. A TypeError where another value is sought in a text, and for what has no hash.
pub fn membership_content(
    alloc: Global,
    heap: &Heap,
    sought: Value,
    container: Value,
) -> Result<Content, Memory>
    ensures { IfOk result (λ content. content ≡ membership_content heap.now sought container) }
{
    match object_of(heap, container) {
        Some(Object::Str(text)) => in_text(alloc, text_of(heap, sought), text),
        Some(Object::Range(range)) => Ok(in_range(operand_of(heap, sought), *range)),
        Some(Object::List(items)) => among(alloc, heap, sought, container, items.as_slice()),
        Some(Object::Tuple(items)) => among(alloc, heap, sought, container, items.as_slice()),
        Some(Object::Dict(dict)) => has_key_content(alloc, heap, dict, sought),
        Some(Object::Set(set)) => has_item_content(alloc, heap, set, sought),
        Some(Object::View(view)) => in_view(alloc, heap, sought, *view),
        _ => Ok(asked(Helper::InOf)),
    }
}
