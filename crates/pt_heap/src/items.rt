//! How a dictionary is kept. A key that is taken out leaves a hole at its place, so that the others
//! keep theirs with nothing moved; holes are dropped all at once when they are more than seven
//! times the entries. Then room is given back too: dropping takes time linear in the room, so that
//! each removal pays for a part of it that doesn't grow.

ghost use Rattle.std.specs.Prelude.{◌≡◌, ◌+◌, ◌<◌, ◌≤◌, ◌++◌, ◌↔◌, [], ◌∷◌, Some, None, IsSome, IsTrue, OnOk, OnErr, filter, is_some, length, slice_get, take, IfOk, ◌^◌};
ghost use Rattle.std.specs.Option.{option_map};
ghost use Rattle.std.specs.Str.{bytes_eq};
ghost use Rattle.std.specs.Map.{set_value};
ghost use Rattle.indexmap.specs.IndexMap.{get, IsUnique};
ghost use Rattle.pt_heap.specs.Entries.{found};
ghost use Rattle.pt_heap.specs.Holes.{entries_from, entries_of, entry_of, entry_at, entry_in, joined, first_from, has_item, one_more, AreHoles};

use crate::{Key, Seed, Value};
use indexmap::IndexMap;
use pt_base::{Dup, Memory, Seq};
use std::alloc::Global;

/// What a key has: the value that it was first written as, and the value behind it.
#[derive(Clone, Copy, Debug)]
pub struct Item {
    pub first: Value,
    pub value: Value,
}

/// Keys in order, each with its item. A key without one is a hole, where an entry was.
pub type Items = IndexMap<Key, Option<Item>, Seed>;

/// The item of a key, if it has one.
pub fn item_of(items: &Items, key: &Key) -> Option<Item>
    ensures { result ≡ joined (get bytes_eq items.now key.now) }
{
    match items.get(key) {
        Some(item) => *item,
        None => None,
    }
}

/// Gives a key that has an item another, or makes its place a hole.
pub fn write(items: &mut Items, key: &Key, item: Option<Item>)
    requires { IsSome (get bytes_eq items.old key.now) }
    ensures entries { items.new.entries ≡ set_value (bytes_eq key.now) items.old.entries item }
    ensures unique { IsUnique bytes_eq items.old → IsUnique bytes_eq items.new }
{
    if let Some(place) = items.get_mut(key) {
        *place = item;
    }
}

/// Drops the holes, and leaves room for twice the entries at most.
pub fn drop_holes(items: &mut Items)
    ensures entries { items.new.entries ≡ filter has_item items.old.entries }
    ensures unique { IsUnique bytes_eq items.new }
{
    items.retain(
        |_key: &Key, item: &mut Option<Item>| -> bool
            ensures { (result ≡ is_some item.old) × (item.new ≡ item.old) }
        { item.is_some() },
    );
    items.shrink_to(items.len().saturating_mul(2));
}

/// The key and the item of a place that has one.
pub fn entry(items: &Items, place: usize) -> Option<(&Key, Item)>
    ensures { entry_at items.now.entries place ≡ option_map (λ e. entry_of e.0.now e.1) result }
{
    match items.get_index(place) {
        Some((key, Some(item))) => Some((key, *item)),
        _ => None,
    }
}

/// Whether the place has no item.
pub fn is_hole(items: &Items, at: usize) -> bool
    ensures { IsTrue result ↔ (entry_at items.now.entries at ≡ None) }
{
    match items.get_index(at) {
        Some((_, Some(_))) => false,
        _ => true,
    }
}

/// The first place from one on that is no hole, where those before it are holes.
pub fn past_holes(items: &Items, from: usize) -> usize
    requires { AreHoles from items.now.entries }
    ensures { AreHoles result items.now.entries }
{
    for at in from..items.len() {
        if !is_hole(items, at) {
            return at;
        }
    }
    items.len()
}

/// The first place from one on that is no hole, or one past the end.
pub fn next_place(items: &Items, from: usize) -> usize
    ensures same { entries_from result items.now.entries ≡ entries_from from items.now.entries }
    ensures first { entry_at items.now.entries result ≡ first_from from items.now.entries }
    ensures fits { result < 2 ^ 63 }
{
    for at in from..items.len() {
        if !is_hole(items, at) {
            return at;
        }
    }
    items.len()
}

/// The place of an entry among places of which some are holes, or one past the end.
pub fn sparse_place(items: &Items, start: usize, number: usize) -> usize
    requires { AreHoles start items.now.entries }
    ensures { entry_at items.now.entries result ≡ slice_get (entries_of items.now.entries) number }
{
    let mut left = number;
    for at in start..items.len() {
        if !is_hole(items, at) {
            if left == 0 {
                return at;
            }
            left -= 1;
        }
    }
    items.len()
}

/// A key that no value has, for holes. Keys of values don't begin so.
pub fn filler(alloc: Global, number: u64) -> Result<Key, Memory> {
    let mut codes = Seq::new(alloc);
    codes.push(255)?;
    for byte in number.to_le_bytes() {
        codes.push(byte)?;
    }
    Ok(Key::new(codes))
}

/// Takes the hole of a key away, by putting another key into its place.
pub fn vacate(items: &mut Items, key: &Key, filler: Key) -> Result<(), Memory>
    requires hole { get bytes_eq items.old key.now ≡ Some None }
    requires new { get bytes_eq items.old filler ≡ None }
    ensures entries { entries_of items.new.entries ≡ entries_of items.old.entries }
    ensures absent { OnOk result (get bytes_eq items.new key.now ≡ None) }
    ensures holes { (n : _) → AreHoles n items.old.entries → AreHoles n items.new.entries }
    ensures unique { IsUnique bytes_eq items.new }
{
    items.insert(filler, None)?;
    items.swap_remove(key);
    Ok(())
}

/// Sees that a key that has no item isn't there at all.
pub fn make_new(
    alloc: Global,
    items: &mut Items,
    start: &mut usize,
    key: &Key,
    number: u64,
) -> Result<(), Memory>
    requires new { found key.now (entries_of items.old.entries) ≡ None }
    requires holes { AreHoles start.old items.old.entries }
    requires unique { IsUnique bytes_eq items.old }
    ensures entries { entries_of items.new.entries ≡ entries_of items.old.entries }
    ensures absent { OnOk result (get bytes_eq items.new key.now ≡ None) }
    ensures holes { AreHoles start.new items.new.entries }
    ensures unique { IsUnique bytes_eq items.new }
{
    if !items.contains_key(key) {
        return Ok(());
    }
    let filler = filler(alloc, number)?;
    if items.contains_key(&filler) {
        drop_holes(items);
        *start = 0;
        return Ok(());
    }
    vacate(items, key, filler)
}

/// Drops the holes where they are more than seven times the entries. Else it passes those at the
/// start over, and answers how many these are.
pub fn settle(items: &mut Items, start: usize, count: usize) -> usize
    requires { AreHoles start items.old.entries }
    ensures entries { entries_of items.new.entries ≡ entries_of items.old.entries }
    ensures holes { AreHoles result items.new.entries }
    ensures unique { IsUnique bytes_eq items.old → IsUnique bytes_eq items.new }
{
    if items.len() / 8 > count {
        drop_holes(items);
        return 0;
    }
    past_holes(items, start)
}

/// The place of an entry by its number, or one past the end. It is reached at once where all holes
/// stand at the start.
pub fn place_of(items: &Items, start: usize, count: usize, number: usize) -> usize
    requires holes { AreHoles start items.now.entries }
    requires count { count ≡ length (entries_of items.now.entries) }
    ensures { entry_at items.now.entries result ≡ slice_get (entries_of items.now.entries) number }
{
    let len = items.len();
    if start + count != len {
        return sparse_place(items, start, number);
    }
    if number < count {
        return start + number;
    }
    len
}

/// A copy of the places, holes too.
pub fn copy_places(alloc: Global, items: &Items) -> Result<Items, Memory>
    ensures entries { IfOk result (λ copy. copy.entries ≡ items.now.entries) }
    ensures unique { IfOk result (IsUnique bytes_eq) }
{
    let mut copy = IndexMap::with_hasher(alloc, *items.hasher());
    for at in 0..items.len() {
        copy_place(alloc, items, at, &mut copy)?;
    }
    Ok(copy)
}

/// Copies the place behind those that are copied.
fn copy_place(alloc: Global, items: &Items, at: usize, copy: &mut Items) -> Result<(), Memory>
    requires at { at < length items.now.entries }
    requires unique { IsUnique bytes_eq items.now }
    requires before { copy.old.entries ≡ take at items.now.entries }
    ensures { OnOk result (copy.new.entries ≡ take (at + 1) items.now.entries) }
{
    if let Some((key, item)) = items.get_index(at) {
        let key = key.dup(alloc)?;
        copy.insert(key, *item)?;
    }
    Ok(())
}

/// Puts a key that has no item behind all others, with an item.
pub fn push(
    alloc: Global,
    items: &mut Items,
    start: &mut usize,
    key: Key,
    item: Item,
    number: u64,
) -> Result<(), Memory>
    requires new { found key (entries_of items.old.entries) ≡ None }
    requires holes { AreHoles start.old items.old.entries }
    requires unique { IsUnique bytes_eq items.old }
    ensures ok { OnOk result (entries_of items.new.entries ≡ one_more items.old.entries key item) }
    ensures err { OnErr result (entries_of items.new.entries ≡ entries_of items.old.entries) }
    ensures holes { AreHoles start.new items.new.entries }
    ensures unique { IsUnique bytes_eq items.new }
{
    make_new(alloc, items, start, &key, number)?;
    items.insert(key, Some(item))?;
    Ok(())
}
