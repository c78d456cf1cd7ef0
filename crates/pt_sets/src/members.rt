ghost use Rattle.std.specs.Prelude.{◌≡◌, IfOk};
ghost use Rattle.pt_sets.specs.Members.{add_content, all_in, among_by, has_item_content};
ghost use Rattle.pt_sets.specs.Members.{same_items, set_content, sought};

use pt_base::{Dup, Memory, ObjId};
use pt_content::{Content, Mutable, NewObject, PrimAns, object_of};
use pt_heap::{Dict, Heap, Object, Value};
use pt_mappings::{Keyed, changed, contains_by, enter, key_in};
use std::alloc::Global;

/// `{a, b}` (Language Reference 6.2.6): each item once, in the place and the form in which it is
/// first. A TypeError for an item that has no hash.
pub fn set_content(alloc: Global, heap: &Heap, items: &[Value]) -> Result<Content, Memory>
    ensures { IfOk result (λ content. content ≡ set_content heap.now items.now) }
{
    let mut set = Dict::new(alloc, heap.seed());
    let mut left = items;
    while let [item, rest @ ..] = left {
        if let Some(content) = enter(alloc, heap, &mut set, *item, Value::None)? {
            return Ok(content);
        }
        left = rest;
    }
    Ok(Content::New(NewObject::Set(set)))
}

/// `add` of the set at a place, and an item of a comprehension (Language Reference 6.2.4).
pub fn add_content(
    alloc: Global,
    heap: &Heap,
    id: ObjId,
    set: &Dict,
    item: Value,
) -> Result<Content, Memory>
    ensures { IfOk result (λ content. content ≡ add_content heap.now id set.now item) }
{
    let mut copy = set.dup(alloc)?;
    if let Some(content) = enter(alloc, heap, &mut copy, item, Value::None)? {
        return Ok(content);
    }
    let done = PrimAns::Value(Value::None);
    Ok(changed(alloc, id, Mutable::Set(copy), done))
}

/// An item that is sought. A set is no item of any, and is sought all the same.
pub fn sought(alloc: Global, heap: &Heap, item: Value) -> Result<Option<Keyed>, Memory>
    ensures { IfOk result (λ keyed. keyed ≡ sought heap.now item) }
{
    match object_of(heap, item) {
        Some(Object::Set(_)) => Ok(None),
        _ => Ok(Some(key_in(alloc, heap, item)?)),
    }
}

fn among_by(set: &Dict, keyed: Option<Keyed>) -> Content
    ensures { result ≡ among_by set.now keyed }
{
    match keyed {
        Some(keyed) => contains_by(set, keyed),
        None => Content::Value(Value::Bool(false)),
    }
}

/// `a in b` of a set (Language Reference 6.10.2).
pub fn has_item_content(
    alloc: Global,
    heap: &Heap,
    set: &Dict,
    item: Value,
) -> Result<Content, Memory>
    ensures { IfOk result (λ content. content ≡ has_item_content heap.now set.now item) }
{
    let keyed = sought(alloc, heap, item)?;
    Ok(among_by(set, keyed))
}

/// Whether a set has all items of another.
fn all_in(items: &Dict, other: &Dict) -> bool
    ensures { result ≡ all_in items.now other.now }
{
    let mut left = items.entries();
    while let Some(entry) = left.next() {
        if other.get(entry.key).is_none() {
            return false;
        }
    }
    true
}

/// `a == b` of two sets (Library Reference, "Set Types").
pub fn same_items(a: &Dict, b: &Dict) -> bool
    ensures { result ≡ same_items a.now b.now }
{
    a.len() == b.len() && all_in(a, b)
}
