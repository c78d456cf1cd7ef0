//! What functions that are written in Python ask of values.

ghost use Rattle.std.specs.Prelude.{◌≡◌, IfOk};
ghost use Rattle.pt_content.specs.pt_attrs.Look.{object_of};
ghost use Rattle.pt_content.specs.Operands.{text_of};
ghost use Rattle.pt_prims.specs.Hidden.{is_instance, is_of, is_of_by, join_by, join_items};
ghost use Rattle.pt_prims.specs.Hidden.{make_set, make_tuple, refill, refill_by, sort_by};
ghost use Rattle.pt_prims.specs.Hidden.{sort_items, tuple_by};

use pt_base::{Memory, Seq, What};
use pt_content::{Content, Operand, class_name, object_of, operand_of, text_of};
use pt_heap::{Heap, Object, Value};
use pt_methods::{joined_content, list_changed, set_content, truth_value, tuple_content};
use pt_sorting::sorted_content;
use std::alloc::Global;

/// A tuple of the items of a list.
fn tuple_by(alloc: Global, heap: &Heap, list: Value) -> Result<Content, Memory>
    ensures { IfOk result (λ content. content ≡ tuple_by (object_of heap.now list)) }
{
    match object_of(heap, list) {
        Some(Object::List(items)) => {
            Ok(tuple_content(Seq::from_slice(alloc, items.as_slice())?))
        }
        _ => Ok(Content::Outside(What::Feature)),
    }
}

/// The same of arguments.
pub(crate) fn make_tuple(alloc: Global, args: &[Value], heap: &Heap) -> Result<Content, Memory>
    ensures { IfOk result (λ content. content ≡ make_tuple args.now heap.now) }
{
    match args {
        [list] => tuple_by(alloc, heap, *list),
        _ => Ok(Content::Outside(What::Feature)),
    }
}

/// A new set.
pub(crate) fn make_set(alloc: Global, args: &[Value], heap: &Heap) -> Result<Content, Memory>
    ensures { IfOk result (λ content. content ≡ make_set args.now) }
{
    match args {
        [] => set_content(alloc, heap, args),
        _ => Ok(Content::Outside(What::Feature)),
    }
}

fn is_instance(operand: Operand) -> bool
    ensures { result ≡ is_instance operand }
{
    match operand {
        Operand::Instance => true,
        _ => false,
    }
}

/// Whether a value is of the builtin class of a name.
fn is_of_by(heap: &Heap, value: Value, name: Value) -> Content
    ensures { result ≡ is_of_by heap.now value (text_of heap.now name) }
{
    let Some(name) = text_of(heap, name) else {
        return Content::Outside(What::Feature);
    };
    if is_instance(operand_of(heap, value)) {
        return truth_value(false);
    }
    truth_value(class_name(heap, value) == name.text().as_str())
}

/// The same of arguments.
pub(crate) fn is_of(args: &[Value], heap: &Heap) -> Content
    ensures { result ≡ is_of args.now heap.now }
{
    match args {
        [value, name] => is_of_by(heap, *value, *name),
        _ => Content::Outside(What::Feature),
    }
}

/// The texts of a list with a text between them.
fn join_by(alloc: Global, heap: &Heap, sep: Value, list: Value) -> Result<Content, Memory>
    ensures { IfOk result (λ content.
        content ≡ join_by heap.now (text_of heap.now sep) (object_of heap.now list)) }
{
    match (text_of(heap, sep), object_of(heap, list)) {
        (Some(sep), Some(Object::List(items))) => {
            joined_content(alloc, heap, sep.text(), items.as_slice())
        }
        _ => Ok(Content::Outside(What::Feature)),
    }
}

/// The same of arguments.
pub(crate) fn join_items(alloc: Global, args: &[Value], heap: &Heap) -> Result<Content, Memory>
    ensures { IfOk result (λ content. content ≡ join_items args.now heap.now) }
{
    match args {
        [sep, list] => join_by(alloc, heap, *sep, *list),
        _ => Ok(Content::Outside(What::Feature)),
    }
}

/// A new list of the items of a list in the order of their keys, or turned round.
fn sort_by(
    alloc: Global,
    heap: &Heap,
    list: Value,
    keys: Value,
    falling: Value,
) -> Result<Content, Memory>
    ensures { IfOk result (λ content.
        content ≡ sort_by heap.now (object_of heap.now list) (object_of heap.now keys) falling) }
{
    match (object_of(heap, list), object_of(heap, keys), falling) {
        (Some(Object::List(items)), Some(Object::List(keys)), Value::Bool(falling)) => {
            sorted_content(alloc, heap, falling, items.as_slice(), keys.as_slice())
        }
        _ => Ok(Content::Outside(What::Feature)),
    }
}

/// The same of arguments.
pub(crate) fn sort_items(alloc: Global, args: &[Value], heap: &Heap) -> Result<Content, Memory>
    ensures { IfOk result (λ content. content ≡ sort_items args.now heap.now) }
{
    match args {
        [list, keys, falling] => sort_by(alloc, heap, *list, *keys, *falling),
        _ => Ok(Content::Outside(What::Feature)),
    }
}

/// A list gets the items of another.
fn refill_by(alloc: Global, heap: &Heap, list: Value, other: Value) -> Result<Content, Memory>
    ensures { IfOk result (λ content. content ≡ refill_by list (object_of heap.now other)) }
{
    match object_of(heap, other) {
        Some(Object::List(items)) => {
            let items = Seq::from_slice(alloc, items.as_slice())?;
            Ok(list_changed(alloc, list, items, Value::None))
        }
        _ => Ok(Content::Outside(What::Feature)),
    }
}

/// The same of arguments.
pub(crate) fn refill(alloc: Global, args: &[Value], heap: &Heap) -> Result<Content, Memory>
    ensures { IfOk result (λ content. content ≡ refill args.now heap.now) }
{
    match args {
        [list, other] => refill_by(alloc, heap, *list, *other),
        _ => Ok(Content::Outside(What::Feature)),
    }
}
