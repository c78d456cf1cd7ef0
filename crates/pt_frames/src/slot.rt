ghost use Rattle.std.specs.Prelude.{◌≡◌, ◌-◌, ◌<◌, ◌∷◌, [], Some, drop, length, slice_get};
ghost use Rattle.std.specs.Prelude.{OnOk, OnErr, MatchOption};
ghost use Rattle.pt_frames.specs.Slots.{active_in, busy_with};

use pt_base::{Dup, Memory};
use pt_heap::{Completion, Value};
use std::alloc::Global;
use std::marker::Model;

/// What an activation holds at a place of its stack.
#[derive(Clone, Copy, Debug, PartialEq, Eq)]
pub enum Slot {
    Value(Value),
    /// The number of a cell.
    Cell(u32),
    /// The iterator of a loop.
    Iter(Value),
    /// The exception of a handler.
    Exc(Value),
    /// The completion that waits for the end of a `finally` part or an exit.
    Pending(Completion),
    /// `__exit__` of the object of a `with`.
    With(Value),
}

/// The exception that a slot is busy with (Language Reference 8.4).
fn busy_with(slot: Slot) -> Option<Value>
    ensures { result ≡ busy_with slot }
{
    match slot {
        Slot::Exc(exception) | Slot::Pending(Completion::Raise(exception)) => Some(exception),
        _ => None,
    }
}

/// The slots of an activation. Contracts see their list, the top first.
#[derive(Debug, Drop)]
pub struct Slots {
    items: Vec<Slot>,
}

impl Model for Slots {
    ghost use Rattle.std.specs.Prelude.{List, reverse};
    ghost use Rattle.pt_frames.specs.declared.slot.Slot.{Slot};

    ghost Value = { List Slot };

    ghost view = { λ s. reverse s.items.items };
}

impl Slots {
    /// No slots. They take no memory until they grow.
    pub fn new(alloc: Global) -> Slots
        ensures { result ≡ [] }
    {
        Slots {
            items: Vec::new(alloc),
        }
    }

    pub fn len(&self) -> usize
        ensures { result ≡ length self.now }
    {
        self.items.len()
    }

    /// Puts a slot on top.
    pub fn push(&mut self, slot: Slot) -> Result<(), Memory>
        ensures ok { OnOk result (self.new ≡ slot ∷ self.old) }
        ensures err { OnErr result (self.new ≡ self.old) }
    {
        self.items.push(slot)?;
        Ok(())
    }

    /// Takes the top off, or answers `None` where there is no slot.
    pub fn pop(&mut self) -> Option<Slot>
        ensures { MatchOption result
            ((self.old ≡ []) × (self.new ≡ [])) (λ top. self.old ≡ top ∷ self.new) }
    {
        self.items.pop()
    }

    /// The slot that so many others are above.
    fn at(&self, above: usize) -> Slot
        requires { above < length self.now }
        ensures { slice_get self.now above ≡ Some result }
    {
        self.items[self.items.len() - 1 - above]
    }

    /// The slot that so many others are above, if it is there.
    pub fn get(&self, above: usize) -> Option<Slot>
        ensures { result ≡ slice_get self.now above }
    {
        if above >= self.len() {
            return None;
        }
        Some(self.at(above))
    }

    /// Takes slots off the top until so many are left, if there are more.
    pub fn cut(&mut self, depth: usize)
        ensures { self.new ≡ drop (length self.old - depth) self.old }
    {
        self.items.truncate(depth);
    }

    /// The exception of the uppermost slot that is busy with one.
    pub fn active(&self) -> Option<Value>
        ensures { result ≡ active_in self.now }
    {
        for above in 0..self.len() {
            if let Some(exception) = busy_with(self.at(above)) {
                return Some(exception);
            }
        }
        None
    }
}

impl Dup for Slots {
    fn dup(&self, alloc: Global) -> Result<Slots, Memory> {
        let items = Vec::from_slice(alloc, &self.items)?;
        Ok(Slots { items })
    }
}
