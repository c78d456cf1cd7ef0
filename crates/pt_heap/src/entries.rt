ghost use Rattle.std.specs.Prelude.{◌≡◌, [], ◌∷◌, IfNone, IfSome};
ghost use Rattle.pt_heap.specs.Entries.{entry};
ghost use Rattle.pt_heap.specs.Holes.{entries_of};

use crate::items::{self, Items};
use crate::{Key, Value};
use std::marker::Model;

/// An entry of a dictionary.
#[derive(Clone, Copy, Debug)]
pub struct EntryRef<'a> {
    pub key: &'a Key,
    /// The value that the key was first written as.
    pub first: Value,
    pub value: Value,
}

/// A dictionary that is gone through. Contracts see the entries that are left.
#[derive(Drop)]
pub struct Entries<'a> {
    items: &'a Items,
    place: usize,
}

impl<'a> Model for Entries<'a> {
    ghost use Rattle.std.specs.Prelude.{List};
    ghost use Rattle.pt_heap.specs.Entries.{Entry};
    ghost use Rattle.pt_heap.specs.Holes.{entries_from};

    ghost Value = { List Entry };

    ghost view = { λ s. entries_from s.place s.items.now.entries };
}

impl<'a> Entries<'a> {
    pub(crate) fn new(items: &'a Items) -> Entries<'a>
        ensures { result ≡ entries_of items.now.entries }
    {
        Entries { items, place: 0 }
    }

    /// Takes the first entry.
    pub fn next(&mut self) -> Option<EntryRef<'a>>
        ensures end { IfNone result (self.old ≡ []) }
        ensures first { IfSome result (λ e. self.old ≡ entry e.key.now e.first e.value ∷ self.new) }
    {
        let place = items::next_place(self.items, self.place);
        match items::entry(self.items, place) {
            Some((key, item)) => {
                self.place = place + 1;
                Some(EntryRef {
                    key,
                    first: item.first,
                    value: item.value,
                })
            }
            None => None,
        }
    }
}
