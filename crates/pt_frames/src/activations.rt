ghost use Rattle.std.specs.Prelude.{◌≡◌, ◌∷◌, [], ◌<◌, ◌≤◌, Some, length, slice_get, OnOk, OnErr};
ghost use Rattle.std.specs.Borrow.{sem};
ghost use Rattle.pt_frames.specs.Activations.{active_exception};
ghost use Rattle.pt_frames.specs.Lending.{LendsNewest};
ghost use Rattle.pt_frames.specs.Limits.{activation_limit};

use crate::{Activation, Purpose};
use pt_base::{Dup, Memory};
use pt_heap::Value;
use std::alloc::Global;
use std::marker::Model;

/// An open activation, with what becomes of its value.
#[derive(Drop)]
pub struct OpenActivation {
    pub activation: Activation,
    pub why: Purpose,
}

/// The open activations. Contracts see their list, the newest first.
#[derive(Drop)]
pub struct Activations {
    items: Vec<OpenActivation>,
}

impl Model for Activations {
    ghost use Rattle.std.specs.Prelude.{List, reverse, length, ◌≤◌};
    ghost use Rattle.pt_frames.specs.Limits.{activation_limit};
    ghost use Rattle.pt_frames.specs.declared.activations.OpenActivation.{OpenActivation};

    ghost Value = { List OpenActivation };

    ghost view = { λ a. reverse a.items.items };

    ghost invariant = { λ a. length a.items.items ≤ activation_limit };
}

impl Activations {
    pub fn new(alloc: Global) -> Activations
        ensures { result ≡ [] }
    {
        Activations {
            items: Vec::new(alloc),
        }
    }

    pub fn len(&self) -> usize
        ensures value { result ≡ length self.now }
        ensures within { result ≤ activation_limit }
    {
        self.items.len()
    }

    pub fn push(&mut self, newest: OpenActivation) -> Result<(), Memory>
        requires { length self.old < activation_limit }
        ensures ok { OnOk result (self.new ≡ newest ∷ self.old) }
        ensures err { OnErr result (self.new ≡ self.old) }
    {
        self.items.push(newest)?;
        Ok(())
    }

    /// Takes the newest off.
    pub fn pop(&mut self) -> OpenActivation
        requires { 0 < length self.old }
        ensures { self.old ≡ result ∷ self.new }
    {
        match self.items.pop() {
            Some(newest) => newest,
            None => unreachable!(),
        }
    }

    pub fn newest(&self) -> &OpenActivation
        requires { 0 < length self.now }
        ensures { slice_get self.now 0 ≡ Some result.now }
    {
        &self.items[self.items.len() - 1]
    }

    /// The one that so many are newer than.
    pub fn at(&self, newer: usize) -> &OpenActivation
        requires { newer < length self.now }
        ensures { slice_get self.now newer ≡ Some result.now }
    {
        &self.items[self.items.len() - 1 - newer]
    }

    /// The exception of the newest that is busy with one.
    pub fn active(&self) -> Option<Value>
        ensures { result ≡ active_exception self.now }
    {
        for newer in 0..self.len() {
            if let Some(exception) = self.at(newer).activation.slots.active() {
                return Some(exception);
            }
        }
        None
    }

    pub fn newest_mut(&mut self) -> &mut OpenActivation
        requires { 0 < length self.old }
        ensures* writes_back { sem 𝓛 (LendsNewest self.entry result) }
        ensures value { slice_get self.old 0 ≡ Some result.now }
    {
        let newest = self.items.len() - 1;
        &mut self.items[newest]
    }
}

impl Dup for OpenActivation {
    fn dup(&self, alloc: Global) -> Result<OpenActivation, Memory> {
        let activation = self.activation.dup(alloc)?;
        let why = self.why.dup(alloc)?;
        Ok(OpenActivation { activation, why })
    }
}

impl Dup for Activations {
    fn dup(&self, alloc: Global) -> Result<Activations, Memory> {
        let mut items = Vec::new(alloc);
        for newer in self.items.as_slice() {
            let newer = newer.dup(alloc)?;
            items.push(newer)?;
        }
        Ok(Activations { items })
    }
}
