ghost use Rattle.std.specs.Prelude.{◌≡◌, ◌++◌, ◌∷◌, [], false, length, nat_lt, slice_set};
ghost use Rattle.std.specs.Prelude.{IfOk, IsTrue, OnErr};
ghost use Rattle.pt_heap.specs.Entries.{put};
ghost use Rattle.pt_heap.specs.Limits.{entry_limit};
ghost use Rattle.pt_mappings.specs.Entering.{has_room};
ghost use Rattle.pt_updates.specs.Updates.{IsUpdated, IsWith, updated, with_update};

use pt_base::{Memory, ObjId, Seq};
use pt_heap::{Dict, DictErr, Heap, Key, Object, Value};

/// The most items that a list may have.
const ENTRY_LIMIT: usize = 4_194_304;

/// What a container gets.
#[derive(Drop)]
pub enum Update {
    /// A list gets an item behind the others.
    Append(Value),
    /// A list gets another item at a place.
    Item {
        place: usize,
        value: Value,
    },
    /// A dictionary gets a value behind a key, which was first written so.
    Entry {
        key: Key,
        first: Value,
        value: Value,
    },
    /// A set gets an item, by its key.
    Member {
        key: Key,
        item: Value,
    },
}

/// Puts an item behind the others, if there is room for it.
fn append(items: &mut Seq<Value>, item: Value) -> Result<bool, Memory>
    ensures room { IfOk result (λ done. done ≡ nat_lt (length items.old) entry_limit) }
    ensures done { IfOk result (λ done. IsTrue done → items.new ≡ items.old ++ item ∷ []) }
    ensures left { IfOk result (λ done. done ≡ false → items.new ≡ items.old) }
    ensures err { OnErr result (items.new ≡ items.old) }
{
    if items.len() >= ENTRY_LIMIT {
        return Ok(false);
    }
    items.push(item)?;
    Ok(true)
}

/// Puts an item in the place of another, if one is there.
fn replace(items: &mut Seq<Value>, place: usize, item: Value) -> bool
    ensures there { result ≡ nat_lt place (length items.old) }
    ensures done { IsTrue result → items.new ≡ slice_set items.old place item }
    ensures left { result ≡ false → items.new ≡ items.old }
{
    if place >= items.len() {
        return false;
    }
    items.set(place, item);
    true
}

/// Gives a key a value, if there is room for it.
fn enter(entries: &mut Dict, key: Key, first: Value, value: Value) -> Result<bool, Memory>
    ensures room { IfOk result (λ done. done ≡ has_room key entries.old) }
    ensures done { IfOk result (λ done. IsTrue done → entries.new ≡ put key first value entries.old) }
    ensures left { IfOk result (λ done. done ≡ false → entries.new ≡ entries.old) }
    ensures err { OnErr result (entries.new ≡ entries.old) }
{
    match entries.insert(key, first, value) {
        Ok(_) => Ok(true),
        Err(DictErr::Length) => Ok(false),
        Err(DictErr::Memory) => Err(Memory),
    }
}

/// Changes an object. False where it is of another kind, has no room or has no such item; it is
/// then as before.
#[tactic(auto, using(crate::proofs::UpdateLemmas::appended, crate::proofs::UpdateLemmas::replaced, crate::proofs::UpdateLemmas::entered, crate::proofs::UpdateLemmas::joined))]
fn change(object: &mut Object, update: Update) -> Result<bool, Memory>
    ensures ok { IfOk result (IsWith (with_update update object.old) object.old object.new) }
    ensures err { OnErr result (object.new ≡ object.old) }
{
    match (object, update) {
        (Object::List(items), Update::Append(item)) => {
            let done = append(items, item)?;
            Ok(done)
        }
        (Object::List(items), Update::Item { place, value }) => Ok(replace(items, place, value)),
        (Object::Dict(entries), Update::Entry { key, first, value }) => {
            let done = enter(entries, key, first, value)?;
            Ok(done)
        }
        (Object::Set(entries), Update::Member { key, item }) => {
            let done = enter(entries, key, item, Value::None)?;
            Ok(done)
        }
        _ => Ok(false),
    }
}

/// Updates the object at a place. False where that isn't possible. The heap is then as before, and
/// after Memory.
#[tactic(auto, using(crate::proofs::UpdateLemmas::put_back, crate::proofs::UpdateLemmas::stays, crate::proofs::UpdateLemmas::beyond))]
pub fn update_at(heap: &mut Heap, id: ObjId, update: Update) -> Result<bool, Memory>
    ensures ok { IfOk result (IsUpdated (updated update id heap.old) heap.old heap.new) }
    ensures err { OnErr result (heap.new ≡ heap.old) }
{
    if id.0 >= heap.len() {
        return Ok(false);
    }
    let mut object = heap.set(id, Object::Generator(0));
    let changed = change(&mut object, update);
    heap.set(id, object);
    let done = changed?;
    Ok(done)
}
