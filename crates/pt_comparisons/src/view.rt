//! Whether a value is in a view of a dictionary.

ghost use Rattle.std.specs.Prelude.{◌≡◌, IfOk};
ghost use Rattle.pt_content.specs.pt_attrs.Look.{object_of};
ghost use Rattle.pt_views.specs.Cursors.{dict_at};
ghost use Rattle.pt_comparisons.specs.Membership.{behind_key, in_pairs, in_part, in_view};
ghost use Rattle.pt_comparisons.specs.Membership.{pair_by, pair_in};
ghost use Rattle.pt_reprs.specs.Shown.{shown};

use crate::equality::{any_equal, value_equality};
use crate::membership::equality_answer;
use crate::truth::{asked, truth_value};
use pt_base::{Memory, Seq};
use pt_content::{Content, Helper, object_of};
use pt_heap::{Dict, DictView, Heap, Object, Part, Value};
use pt_reprs::{need_help, shown};
use pt_views::{Keyed, dict_at, has_key_content, key_in};
use std::alloc::Global;

/// The key and the value of a tuple of two.
fn pair_of(heap: &Heap, value: Value) -> Option<(Value, Value)>
    ensures { result ≡ pair_in (object_of heap.now value) }
{
    match object_of(heap, value) {
        Some(Object::Tuple(items)) => match items.as_slice() {
            [key, value] => Some((*key, *value)),
            _ => None,
        },
        _ => None,
    }
}

fn behind_key(
    alloc: Global,
    heap: &Heap,
    value: Value,
    there: Option<Value>,
) -> Result<Content, Memory>
    ensures { IfOk result (λ content. content ≡ behind_key heap.now value there) }
{
    match there {
        Some(there) => equality_answer(alloc, value_equality(heap, there, value)),
        None => Ok(truth_value(false)),
    }
}

fn in_pairs(
    alloc: Global,
    heap: &Heap,
    dict: &Dict,
    pair: Option<(Value, Value)>,
) -> Result<Content, Memory>
    ensures { IfOk result (λ content. content ≡ in_pairs heap.now dict.now pair) }
{
    let Some((key, value)) = pair else {
        return Ok(truth_value(false));
    };
    match key_in(alloc, heap, key)? {
        Keyed::Key(key) => behind_key(alloc, heap, value, dict.get(&key)),
        Keyed::Refused(content) => Ok(content),
    }
}

fn in_part(
    alloc: Global,
    heap: &Heap,
    sought: Value,
    part: Part,
    dict: &Dict,
    values: &[Value],
) -> Result<Content, Memory>
    requires { values.now ≡ shown part dict.now }
    ensures { IfOk result (λ content. content ≡ in_part heap.now sought part dict.now) }
{
    match part {
        Part::Keys => has_key_content(alloc, heap, dict, sought),
        Part::Values => equality_answer(alloc, any_equal(heap, sought, values)),
        Part::Items => in_pairs(alloc, heap, dict, pair_of(heap, sought)),
    }
}

/// `a in b` of a view (Language Reference 6.10.2; Library Reference, "Dictionary view objects").
pub fn in_view(alloc: Global, heap: &Heap, sought: Value, view: DictView) -> Result<Content, Memory>
    ensures { IfOk result (λ content. content
        ≡ in_view heap.now sought view.part (dict_at heap.now view.dict)) }
{
    let Some(dict) = dict_at(heap, view.dict) else {
        return Ok(truth_value(false));
    };
    let values = shown(alloc, view.part, dict)?;
    if need_help(alloc, heap, &[sought])? || need_help(alloc, heap, values.as_slice())? {
        return Ok(asked(Helper::InOf));
    }
    in_part(alloc, heap, sought, view.part, dict, values.as_slice())
}
