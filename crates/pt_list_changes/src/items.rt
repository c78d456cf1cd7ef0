//! Items that statements and displays change.

ghost use Rattle.std.specs.Prelude.{◌≡◌, [], ◌∷◌, ◌++◌, ◌<◌, None, length, IfOk, IfSome};
ghost use Rattle.std.specs.List.{remove};
ghost use Rattle.pt_content.specs.Operands.{operand_of};
ghost use Rattle.pt_sequences.specs.Items.{item_or, place_of};
ghost use Rattle.pt_list_changes.specs.Items.{delete_item_content, deleted_by, list_add_content};
ghost use Rattle.pt_list_changes.specs.Items.{set_by, set_item_content};

use crate::changed::{list_changed, list_grown};
use pt_base::{Memory, Seq, What};
use pt_content::{
    Content, INDEX_ERROR, Operand, TYPE_ERROR, bad_argument, object_of, operand_of, raise,
};
use pt_heap::{Heap, Object, Value};
use pt_sequences::not_subscriptable;
use std::alloc::Global;

/// Items with one more behind them.
pub fn with_item(alloc: Global, items: &[Value], new: Value) -> Result<Seq<Value>, Memory>
    ensures { IfOk result (λ all. all ≡ items.now ++ new ∷ []) }
{
    let mut all = Seq::from_slice(alloc, items)?;
    all.push(new)?;
    Ok(all)
}

/// Items without the one at a place.
pub fn without_item(alloc: Global, items: &[Value], place: usize) -> Result<Seq<Value>, Memory>
    requires { place < length items.now }
    ensures { IfOk result (λ left. left ≡ remove items.now place) }
{
    let mut left = Vec::from_slice(alloc, items)?;
    left.remove(place);
    Ok(Seq::from_vec(left))
}

/// The place of an index among so many items. One below 0 counts from the end.
pub fn place_of(count: usize, index: i128) -> Option<usize>
    ensures place { result ≡ place_of count index }
    ensures within { IfSome result (λ place. place < count) }
{
    let distance = index.unsigned_abs();
    let count = count as u128;
    if index < 0 {
        return Some(count.checked_sub(distance)? as usize);
    }
    if distance < count {
        return Some(distance as usize);
    }
    None
}

/// There is no such item.
pub fn no_item(alloc: Global) -> Result<Content, Memory>
    ensures { IfOk result (λ content. content ≡ item_or None) }
{
    raise(alloc, INDEX_ERROR, "index out of range")
}

fn set_by(
    alloc: Global,
    list: Value,
    items: &[Value],
    new: Value,
    index: Operand,
) -> Result<Content, Memory>
    ensures { IfOk result (λ content. content ≡ set_by list items.now new index) }
{
    let Operand::Number(index) = index else {
        return bad_argument(alloc, TYPE_ERROR);
    };
    match place_of(items.len(), index) {
        Some(place) => {
            let mut items = Seq::from_slice(alloc, items)?;
            items.set(place, new);
            Ok(list_changed(alloc, list, items, Value::None))
        }
        None => no_item(alloc),
    }
}

fn deleted_by(
    alloc: Global,
    list: Value,
    items: &[Value],
    index: Operand,
) -> Result<Content, Memory>
    ensures { IfOk result (λ content. content ≡ deleted_by list items.now index) }
{
    let Operand::Number(index) = index else {
        return bad_argument(alloc, TYPE_ERROR);
    };
    match place_of(items.len(), index) {
        Some(place) => {
            let left = without_item(alloc, items, place)?;
            Ok(list_changed(alloc, list, left, Value::None))
        }
        None => no_item(alloc),
    }
}

/// `a[i] = x` (Language Reference 7.2), of a list by an integer. An IndexError where there is no
/// such item, a TypeError for another container or index, as a slice. Outside with the cause
/// Feature for dictionaries.
pub fn set_item_content(
    alloc: Global,
    heap: &Heap,
    new: Value,
    container: Value,
    index: Value,
) -> Result<Content, Memory>
    ensures { IfOk result (λ content. content ≡ set_item_content heap.now new container index) }
{
    let index = operand_of(heap, index);
    match object_of(heap, container) {
        Some(Object::List(items)) => set_by(alloc, container, items.as_slice(), new, index),
        Some(Object::Dict(_)) => Ok(Content::Outside(What::Feature)),
        _ => not_subscriptable(alloc, heap, container),
    }
}

/// `del a[i]` (Language Reference 7.5), of what `a[i] = x` is of.
pub fn delete_item_content(
    alloc: Global,
    heap: &Heap,
    container: Value,
    index: Value,
) -> Result<Content, Memory>
    ensures { IfOk result (λ content. content ≡ delete_item_content heap.now container index) }
{
    let index = operand_of(heap, index);
    match object_of(heap, container) {
        Some(Object::List(items)) => deleted_by(alloc, container, items.as_slice(), index),
        Some(Object::Dict(_)) => Ok(Content::Outside(What::Feature)),
        _ => not_subscriptable(alloc, heap, container),
    }
}

/// A list gets an item more (Language Reference 6.2.4). Outside with the cause Length where it has
/// 4,194,304.
pub fn list_add_content(
    alloc: Global,
    heap: &Heap,
    list: Value,
    new: Value,
) -> Result<Content, Memory>
    ensures { IfOk result (λ content. content ≡ list_add_content heap.now list new) }
{
    match object_of(heap, list) {
        Some(Object::List(items)) => {
            let items = with_item(alloc, items.as_slice(), new)?;
            Ok(list_grown(alloc, list, items))
        }
        _ => Ok(Content::Outside(What::Feature)),
    }
}
