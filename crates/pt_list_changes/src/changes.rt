//! Methods of lists that change their items.

ghost use Rattle.std.specs.Prelude.{◌≡◌, ◌++◌, ◌<◌, ◌≤◌, Some, false, length, IfOk};
ghost use Rattle.std.specs.List.{insert};
ghost use Rattle.pt_list_changes.specs.Changes.{append_content, clear_content, copy_content};
ghost use Rattle.pt_list_changes.specs.Changes.{extend_content, insert_content, insertion_place};
ghost use Rattle.pt_list_changes.specs.Changes.{pop_content, pop_last_content, reverse_content};
ghost use Rattle.pt_list_changes.specs.Changes.{taken_at, taken_by};
ghost use Rattle.pt_list_changes.specs.Changed.{list_grown};
ghost use Rattle.pt_content.specs.declared.answer.Helper.TheVariants.{ExtendOf};
ghost use Rattle.pt_content.specs.declared.content.Content.TheVariants.{Help};

use crate::changed::{list_changed, list_grown};
use crate::items::{no_item, place_of, with_item, without_item};
use pt_base::{Memory, Seq};
use pt_content::{
    Content, Helper, NewObject, Operand, TYPE_ERROR, bad_argument, object_of, operand_of,
};
use pt_heap::{Heap, Object, Value};
use pt_sequences::asked_or;
use std::alloc::Global;

/// `append` (Library Reference, "Mutable Sequence Types"). Outside with the cause Length for more
/// than 4,194,304 items, as of `extend` and `insert`.
pub fn append_content(
    alloc: Global,
    list: Value,
    items: &[Value],
    new: Value,
) -> Result<Content, Memory>
    ensures { IfOk result (λ content. content ≡ append_content list items.now new) }
{
    let items = with_item(alloc, items, new)?;
    Ok(list_grown(alloc, list, items))
}

/// A list with the items of another sequence behind its own.
fn joined(alloc: Global, list: Value, items: &[Value], more: &[Value]) -> Result<Content, Memory>
    ensures { IfOk result (λ content. content ≡ list_grown list (items.now ++ more.now)) }
{
    let mut all = Vec::from_slice(alloc, items)?;
    all.extend_from_slice(more)?;
    Ok(list_grown(alloc, list, Seq::from_vec(all)))
}

/// The helper that extends a list is asked.
fn extension() -> Content
    ensures { result ≡ Help ExtendOf false }
{
    Content::Help {
        helper: Helper::ExtendOf,
        inverted: false,
    }
}

/// `extend` by the items of a list or tuple. A helper is asked of what has items in another form,
/// and of instances of a script's class; a TypeError for what isn't iterable.
pub fn extend_content(
    alloc: Global,
    heap: &Heap,
    list: Value,
    items: &[Value],
    other: Value,
) -> Result<Content, Memory>
    ensures { IfOk result (λ content. content ≡ extend_content heap.now list items.now other) }
{
    match object_of(heap, other) {
        Some(Object::List(more)) => joined(alloc, list, items, more.as_slice()),
        Some(Object::Tuple(more)) => joined(alloc, list, items, more.as_slice()),
        Some(Object::Str(_)) => Ok(extension()),
        Some(Object::Dict(_)) => Ok(extension()),
        Some(Object::Set(_)) => Ok(extension()),
        Some(Object::Range(_)) => Ok(extension()),
        Some(Object::View(_)) => Ok(extension()),
        Some(Object::Cursor(_)) => Ok(extension()),
        Some(Object::Generator(_)) => Ok(extension()),
        _ => asked_or(alloc, Helper::ExtendOf, "iterable", heap, other),
    }
}

/// Where an item is inserted among so many: at an end, where the index lies beyond it.
fn insertion_place(count: usize, index: i128) -> usize
    ensures place { result ≡ insertion_place count index }
    ensures within { result ≤ count }
{
    let distance = index.unsigned_abs();
    if index < 0 {
        return (count as u128).saturating_sub(distance) as usize;
    }
    if distance < count as u128 {
        return distance as usize;
    }
    count
}

/// Items with one more at a place.
fn with_inserted(
    alloc: Global,
    items: &[Value],
    place: usize,
    new: Value,
) -> Result<Seq<Value>, Memory>
    requires { place ≤ length items.now }
    ensures { IfOk result (λ all. all ≡ insert items.now place new) }
{
    let mut all = Vec::from_slice(alloc, items)?;
    all.insert(place, new)?;
    Ok(Seq::from_vec(all))
}

/// `insert`, at an end where the index lies beyond it. A TypeError for an index that is no integer.
pub fn insert_content(
    alloc: Global,
    heap: &Heap,
    list: Value,
    items: &[Value],
    index: Value,
    new: Value,
) -> Result<Content, Memory>
    ensures { IfOk result
        (λ content. content ≡ insert_content heap.now list items.now index new) }
{
    let Operand::Number(index) = operand_of(heap, index) else {
        return bad_argument(alloc, TYPE_ERROR);
    };
    let place = insertion_place(items.len(), index);
    let items = with_inserted(alloc, items, place, new)?;
    Ok(list_grown(alloc, list, items))
}

/// The item at a place leaves the list, and is answered.
fn taken_at(alloc: Global, list: Value, items: &[Value], place: usize) -> Result<Content, Memory>
    requires { place < length items.now }
    ensures { IfOk result (λ content. content ≡ taken_at list items.now (Some place)) }
{
    match items.get(place) {
        Some(item) => {
            let left = without_item(alloc, items, place)?;
            Ok(list_changed(alloc, list, left, *item))
        }
        None => no_item(alloc),
    }
}

/// The item of an index leaves the list, and is answered.
fn taken_by(alloc: Global, list: Value, items: &[Value], index: Operand) -> Result<Content, Memory>
    ensures { IfOk result (λ content. content ≡ taken_by list items.now index) }
{
    let Operand::Number(index) = index else {
        return bad_argument(alloc, TYPE_ERROR);
    };
    match place_of(items.len(), index) {
        Some(place) => taken_at(alloc, list, items, place),
        None => no_item(alloc),
    }
}

/// `pop` of the last item. An IndexError where there is none.
pub fn pop_last_content(alloc: Global, list: Value, items: &[Value]) -> Result<Content, Memory>
    ensures { IfOk result (λ content. content ≡ pop_last_content list items.now) }
{
    taken_by(alloc, list, items, Operand::Number(-1))
}

/// `pop` of an index. An IndexError where there is no such item, a TypeError for an index that is
/// no integer.
pub fn pop_content(
    alloc: Global,
    heap: &Heap,
    list: Value,
    items: &[Value],
    index: Value,
) -> Result<Content, Memory>
    ensures { IfOk result (λ content. content ≡ pop_content heap.now list items.now index) }
{
    taken_by(alloc, list, items, operand_of(heap, index))
}

/// `reverse`
pub fn reverse_content(alloc: Global, list: Value, items: &[Value]) -> Result<Content, Memory>
    ensures { IfOk result (λ content. content ≡ reverse_content list items.now) }
{
    let mut turned = Vec::from_slice(alloc, items)?;
    turned.reverse();
    Ok(list_changed(alloc, list, Seq::from_vec(turned), Value::None))
}

/// `clear`
pub fn clear_content(alloc: Global, list: Value) -> Content
    ensures { result ≡ clear_content list }
{
    list_changed(alloc, list, Seq::new(alloc), Value::None)
}

/// `copy`
pub fn copy_content(alloc: Global, items: &[Value]) -> Result<Content, Memory>
    ensures { IfOk result (λ content. content ≡ copy_content items.now) }
{
    Ok(Content::New(NewObject::List(Seq::from_slice(alloc, items)?)))
}
