ghost use Rattle.std.specs.Prelude.{◌≡◌, ◌<◌, ◌∷◌, [], suc, false, Some, length, slice_get};
ghost use Rattle.std.specs.Prelude.{OnOk, OnErr, MatchOption};
ghost use Rattle.sem_run.specs.run.State.{most_activations};
ghost use Rattle.pt_openers.specs.Openers.{active_in, hook_runs, is_full};

use crate::Waits;
use pt_base::Memory;
use pt_heap::Value;
use std::alloc::Global;
use std::marker::Model;

/// The most activations that may be open.
const ACTIVATION_LIMIT: usize = 1_000;

/// The activations that wait, each for the next newer one. With the newest of all, which isn't among
/// them, they are at most as many as may be open. Contracts see their list, the newest first.
#[derive(Drop)]
pub struct Openers<P> {
    items: Vec<P>,
}

impl<P> Model for Openers<P> {
    ghost use Rattle.std.specs.Prelude.{List, reverse, length, ◌<◌};
    ghost use Rattle.sem_run.specs.run.State.{most_activations};

    ghost Value = { List P };

    ghost view = { λ o. reverse o.items.items };

    ghost invariant = { λ o. length o.items.items < most_activations };
}

impl<P> Openers<P> {
    /// None waits. It takes no memory until one does.
    pub fn new(alloc: Global) -> Openers<P>
        ensures { result ≡ [] }
    {
        Openers {
            items: Vec::new(alloc),
        }
    }

    /// How many wait.
    pub fn len(&self) -> usize
        ensures value { result ≡ length self.now }
        ensures within { result < most_activations }
    {
        self.items.len()
    }

    /// Whether as many activations are open as may be, so that no newer one may open.
    pub fn is_full(&self) -> bool
        ensures full { result ≡ is_full self.now }
        ensures room { result ≡ false → suc (length self.now) < most_activations }
    {
        ACTIVATION_LIMIT <= self.len() + 1
    }

    /// Takes the newest off, which goes on, or answers `None` where none waits.
    pub fn pop(&mut self) -> Option<P>
        ensures { MatchOption result
            ((self.old ≡ []) × (self.new ≡ [])) (λ newest. self.old ≡ newest ∷ self.new) }
    {
        self.items.pop()
    }

    /// The one that so many others are newer than.
    pub fn at(&self, newer: usize) -> &P
        requires { newer < length self.now }
        ensures { slice_get self.now newer ≡ Some result.now }
    {
        &self.items[self.items.len() - 1 - newer]
    }
}

impl<P: Drop> Openers<P> {
    /// One more waits, for an activation that opens.
    ///
    /// # Errors
    ///
    /// Memory, and then nothing has changed.
    pub fn push(&mut self, newest: P) -> Result<(), Memory>
        requires { suc (length self.old) < most_activations }
        ensures ok { OnOk result (self.new ≡ newest ∷ self.old) }
        ensures err { OnErr result (self.new ≡ self.old) }
    {
        self.items.push(newest)?;
        Ok(())
    }
}

impl<P: Waits> Openers<P> {
    /// The exception that is active in the newest that has one (Language Reference 7.8, 8.4).
    pub fn active(&self) -> Option<Value>
        ensures { result ≡ active_in P.exception self.now }
    {
        for newer in 0..self.len() {
            if let Some(exception) = self.at(newer).active() {
                return Some(exception);
            }
        }
        None
    }

    /// Whether a hook runs, so that nothing is told (Library Reference, `sys.settrace`,
    /// `sys.monitoring`).
    pub fn hook_runs(&self) -> bool
        ensures { result ≡ hook_runs P.is_for_hook self.now }
    {
        for newer in 0..self.len() {
            if self.at(newer).waits_for_hook() {
                return true;
            }
        }
        false
    }
}
