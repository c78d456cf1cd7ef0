ghost use Rattle.std.specs.Prelude.{◌≡◌, IfOk};
ghost use Rattle.pt_heap.specs.Entries.{without};
ghost use Rattle.pt_mappings.specs.Items.{delete_item_content, deleted_by, has_key_content};
ghost use Rattle.pt_mappings.specs.Items.{item_by, item_content, set_item_content};

use crate::entering::enter;
use crate::keyed::{Keyed, changed, contains_by, key_in, missing, or_missing};
use pt_base::{Dup, Memory, ObjId};
use pt_content::{Content, Mutable, PrimAns};
use pt_heap::{Dict, Heap, Key, Value};
use std::alloc::Global;

fn item_by(alloc: Global, dict: &Dict, key: Value, keyed: Keyed) -> Content
    ensures { result ≡ item_by dict.now key keyed }
{
    match keyed {
        Keyed::Refused(content) => content,
        Keyed::Key(place) => or_missing(alloc, key, dict.get(&place)),
    }
}

/// `a[b]` of a dictionary (Language Reference 6.3.2). A KeyError, whose argument is the key, where
/// that isn't there.
pub fn item_content(alloc: Global, heap: &Heap, dict: &Dict, key: Value) -> Result<Content, Memory>
    ensures { IfOk result (λ content. content ≡ item_content heap.now dict.now key) }
{
    let keyed = key_in(alloc, heap, key)?;
    Ok(item_by(alloc, dict, key, keyed))
}

/// `a[b] = c` of the dictionary at a place, and an entry of a comprehension (Language Reference
/// 6.2.7, 7.2): a key that is there keeps its place and its first form.
pub fn set_item_content(
    alloc: Global,
    heap: &Heap,
    id: ObjId,
    dict: &Dict,
    key: Value,
    value: Value,
) -> Result<Content, Memory>
    ensures { IfOk result (λ content.
        content ≡ set_item_content heap.now id dict.now key value) }
{
    let mut copy = dict.dup(alloc)?;
    if let Some(content) = enter(alloc, heap, &mut copy, key, value)? {
        return Ok(content);
    }
    let done = PrimAns::Value(Value::None);
    Ok(changed(alloc, id, Mutable::Dict(copy), done))
}

/// The entries but that of a key, each reached by its number at once.
pub fn removed(alloc: Global, entries: &Dict, key: &Key) -> Result<Dict, Memory>
    ensures { IfOk result (λ left. left ≡ without key.now entries.now) }
{
    let mut left = entries.dup(alloc)?;
    left.remove(key);
    left.settle();
    Ok(left)
}

fn deleted_by(
    alloc: Global,
    id: ObjId,
    dict: &Dict,
    key: Value,
    keyed: Keyed,
) -> Result<Content, Memory>
    ensures { IfOk result (λ content. content ≡ deleted_by id dict.now key keyed) }
{
    let place = match keyed {
        Keyed::Refused(content) => return Ok(content),
        Keyed::Key(place) => place,
    };
    if dict.get(&place).is_none() {
        return Ok(missing(alloc, key));
    }
    let left = removed(alloc, dict, &place)?;
    let done = PrimAns::Value(Value::None);
    Ok(changed(alloc, id, Mutable::Dict(left), done))
}

/// `del a[b]` of the dictionary at a place (Language Reference 7.5). A KeyError, whose argument is
/// the key, where that isn't there.
pub fn delete_item_content(
    alloc: Global,
    heap: &Heap,
    id: ObjId,
    dict: &Dict,
    key: Value,
) -> Result<Content, Memory>
    ensures { IfOk result (λ content.
        content ≡ delete_item_content heap.now id dict.now key) }
{
    let keyed = key_in(alloc, heap, key)?;
    deleted_by(alloc, id, dict, key, keyed)
}

/// `a in b` of a dictionary (Language Reference 6.10.2).
pub fn has_key_content(
    alloc: Global,
    heap: &Heap,
    dict: &Dict,
    key: Value,
) -> Result<Content, Memory>
    ensures { IfOk result (λ content. content ≡ has_key_content heap.now dict.now key) }
{
    let keyed = key_in(alloc, heap, key)?;
    Ok(contains_by(dict, keyed))
}
