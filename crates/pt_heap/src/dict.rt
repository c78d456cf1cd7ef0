ghost use Rattle.std.specs.Prelude.{◌≡◌, ◌+◌, ◌≤◌, ◌↔◌, ◌<◌, ◌++◌, [], ◌∷◌, None, Some, Err, IfOk, OnOk, OnErr, length, slice_get};
ghost use Rattle.std.specs.Str.{bytes_eq};
ghost use Rattle.std.specs.Option.{option_map, option_copied};
ghost use Rattle.indexmap.specs.IndexMap.{get, IsUnique};
ghost use Rattle.pt_heap.specs.Entries.{found, put, without, HasNoRoomFor, HaveDistinctKeys};
ghost use Rattle.pt_heap.specs.Holes.{entries_of, entry_of, AreHoles};
ghost use Rattle.pt_heap.specs.Limits.{entry_limit};
ghost use Rattle.pt_heap.specs.declared.dict.DictErr.TheVariants.{Memory as out_of_memory};

use crate::items::{self, Item, Items};
use crate::{Entries, Key, Seed, Value};
use indexmap::IndexMap;
use pt_base::{Dup, Memory};
use std::alloc::Global;
use std::marker::Model;

/// The most entries that a dictionary may have.
const ENTRY_LIMIT: usize = 4_194_304;

/// Why an entry was not put in.
#[derive(Clone, Copy, Debug, PartialEq, Eq)]
pub enum DictErr {
    /// The dictionary has as many entries as one may have, and the key is new.
    Length,
    Memory,
}

impl From<Memory> for DictErr {
    ghost from_gives = { λ _ e. e ≡ out_of_memory };

    fn from(_: Memory) -> Self {
        DictErr::Memory
    }
}

/// A dictionary, which contracts see as the list of its entries, in the order of insertion.
#[derive(Drop)]
pub struct Dict {
    alloc: Global,
    items: Items,
    count: usize,
    /// How many holes there are at least in front of the first entry.
    start: usize,
    /// How many fillers were made.
    fillers: u64,
}

impl Model for Dict {
    ghost use Rattle.std.specs.Prelude.{List};
    ghost use Rattle.pt_heap.specs.Entries.{Entry};
    ghost use Rattle.pt_heap.specs.Holes.{entries_of, IsKept};

    ghost Value = { List Entry };

    ghost view = { λ d. entries_of d.items.entries };

    ghost invariant = { λ d. IsKept d.count d.start d.items.entries };
}

impl Dict {
    /// A dictionary with no entry. It takes no memory until it grows.
    pub fn new(alloc: Global, seed: Seed) -> Dict
        ensures { result ≡ [] }
    {
        Dict {
            alloc,
            items: IndexMap::with_hasher(alloc, seed),
            count: 0,
            start: 0,
            fillers: 0,
        }
    }

    /// The number of entries, of which no two have the same key.
    pub fn len(&self) -> u32
        ensures count { result ≡ length self.now }
        ensures limit { length self.now ≤ entry_limit }
        ensures keys { HaveDistinctKeys self.now }
    {
        self.count as u32
    }

    /// The value behind a key.
    pub fn get(&self, key: &Key) -> Option<Value>
        ensures { result ≡ found key.now self.now }
    {
        match items::item_of(&self.items, key) {
            Some(item) => Some(item.value),
            None => None,
        }
    }

    /// Gives a key a value. Where the key is there it keeps its place and the value that it was
    /// first written as; the value that it had is handed back.
    pub fn insert(&mut self, key: Key, first: Value, value: Value) -> Result<Option<Value>, DictErr>
        ensures old { IfOk result (λ old. old ≡ found key self.old) }
        ensures ok { OnOk result (self.new ≡ put key first value self.old) }
        ensures err { OnErr result (self.new ≡ self.old) }
        ensures full { (result ≡ Err DictErr.Length) ↔ HasNoRoomFor self.old key }
    {
        match items::item_of(&self.items, &key) {
            Some(item) => {
                let renewed = Item {
                    first: item.first,
                    value,
                };
                items::write(&mut self.items, &key, Some(renewed));
                Ok(Some(item.value))
            }
            None => match self.append(key, Item { first, value }) {
                Ok(()) => Ok(None),
                Err(error) => Err(error),
            },
        }
    }

    /// Puts an entry with a new key behind the last.
    fn append(&mut self, key: Key, item: Item) -> Result<(), DictErr>
        requires { found key self.old ≡ None }
        ensures ok { OnOk result (self.new ≡ self.old ++ entry_of key item ∷ []) }
        ensures err { OnErr result (self.new ≡ self.old) }
        ensures full { (result ≡ Err DictErr.Length) ↔ (length self.old ≡ entry_limit) }
    {
        if self.count == ENTRY_LIMIT {
            return Err(DictErr::Length);
        }
        self.fillers = self.fillers.wrapping_add(1);
        items::push(
            self.alloc,
            &mut self.items,
            &mut self.start,
            key,
            item,
            self.fillers,
        )?;
        self.count += 1;
        Ok(())
    }

    /// Takes the entry of a key out, and answers the value that it had. The entries behind it keep
    /// their order, and none is moved.
    pub fn remove(&mut self, key: &Key) -> Option<Value>
        ensures value { result ≡ found key.now self.old }
        ensures entries { self.new ≡ without key.now self.old }
    {
        match items::item_of(&self.items, key) {
            Some(item) => {
                items::write(&mut self.items, key, None);
                self.count -= 1;
                self.start = items::settle(&mut self.items, self.start, self.count);
                Some(item.value)
            }
            None => None,
        }
    }

    /// The first form and the value of an entry, by its number from 0.
    pub fn at(&self, place: u32) -> Option<(Value, Value)>
        ensures { result ≡ option_map (λ e. (e.first, e.value)) (slice_get self.now place) }
    {
        let at = items::place_of(&self.items, self.start, self.count, place as usize);
        match items::entry(&self.items, at) {
            Some((_, item)) => Some((item.first, item.value)),
            None => None,
        }
    }

    /// The key of an entry, by its number from 0.
    pub fn key_at(&self, place: u32) -> Option<&Key>
        ensures { option_copied result ≡ option_map (λ e. e.key) (slice_get self.now place) }
    {
        let at = items::place_of(&self.items, self.start, self.count, place as usize);
        match items::entry(&self.items, at) {
            Some((key, _)) => Some(key),
            None => None,
        }
    }

    /// The entries in order, in time linear in the places that they and the holes have.
    pub fn entries(&self) -> Entries<'_>
        ensures rest { result ≡ self.now }
        ensures keys { HaveDistinctKeys result }
    {
        Entries::new(&self.items)
    }

    /// The seed of the hashes of its keys. No clause speaks of it, since nothing that is answered
    /// depends on it.
    pub fn seed(&self) -> Seed {
        *self.items.hasher()
    }

    /// Drops the holes that taking entries out has left, so that each entry is reached by its
    /// number at once until another is taken out.
    pub fn settle(&mut self)
        ensures { self.new ≡ self.old }
    {
        let len = self.items.len();
        if self.start + self.count != len {
            items::drop_holes(&mut self.items);
            self.start = 0;
        }
    }
}

impl Dup for Dict {
    fn dup(&self, alloc: Global) -> Result<Dict, Memory> {
        let items = items::copy_places(alloc, &self.items)?;
        Ok(Dict {
            alloc,
            items,
            count: self.count,
            start: self.start,
            fillers: self.fillers,
        })
    }
}
