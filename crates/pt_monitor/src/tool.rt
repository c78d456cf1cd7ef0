ghost use Rattle.std.specs.Prelude.{◌≡◌, ℕ, ◌∷◌, is_some, IfOk, OnOk, OnErr};
ghost use Rattle.sem_run.specs.run.Tools.{unused, local_set, callback, has, has_event, with_callback, without_callback};
ghost use Rattle.pt_monitor.specs.Alike.{IsAlike};
ghost use Rattle.pt_monitor.specs.Events.{bit_of};
ghost use Rattle.pt_monitor.specs.Kept as kept;
ghost use Rattle.pt_monitor.specs.Kept.{can_be_due};
ghost use Rattle.pt_monitor.specs.declared.event.MonEvent.{MonEvent};

use crate::maps::{self, Callbacks, LocalSets};
use crate::{EventSet, MonEvent};
use bitflags::Flags;
use indexmap::IndexMap;
use pt_base::{BlockId, Dup, Memory, Text};
use pt_heap::Value;
use std::alloc::Global;
use std::marker::Model;

/// A tool: its name while its id is in use, its sets of events, and its callbacks.
#[derive(Drop)]
pub struct Tool {
    name: Option<Text>,
    set: EventSet,
    local: LocalSets,
    callbacks: Callbacks,
    /// The events for which there is a callback.
    registered: EventSet,
}

impl Model for Tool {
    ghost use Rattle.pt_heap.specs.declared.value.Value as values;
    ghost use Rattle.sem_run.specs.run.Tools as of_tools;
    ghost use Rattle.pt_monitor.specs.Kept.{local_sets, callbacks_of, HasCallbacks};

    ghost Value = { of_tools.Tool values.Value };

    ghost view = { λ t. record {
      name = t.name;
      set = t.set.0;
      local = local_sets t.local.entries;
      callbacks = callbacks_of t.callbacks.entries;
    } };

    ghost invariant = { λ t. HasCallbacks t.registered.0 (callbacks_of t.callbacks.entries) };
}

impl Tool {
    /// A tool whose id isn't in use.
    pub fn new(alloc: Global) -> Tool
        ensures { result ≡ unused }
    {
        Tool {
            name: None,
            set: EventSet(0),
            local: IndexMap::new(alloc),
            callbacks: IndexMap::new(alloc),
            registered: EventSet(0),
        }
    }

    pub fn name(&self, alloc: Global) -> Result<Option<Text>, Memory>
        ensures { IfOk result (λ name. name ≡ self.now.name) }
    {
        match &self.name {
            Some(name) => Ok(Some(name.dup(alloc)?)),
            None => Ok(None),
        }
    }

    pub fn is_in_use(&self) -> bool
        ensures { result ≡ is_some self.now.name }
    {
        self.name.is_some()
    }

    pub fn set_name(&mut self, name: Option<Text>)
        ensures { self.new ≡ record self.old { name = name } }
    {
        self.name = name;
    }

    pub fn set(&self) -> EventSet
        ensures { result.0 ≡ self.now.set }
    {
        self.set
    }

    pub fn give_set(&mut self, set: EventSet)
        ensures { self.new ≡ record self.old { set = set.0 } }
    {
        self.set = set;
    }

    pub fn local(&self, block: BlockId) -> EventSet
        ensures { result.0 ≡ local_set self.now.local (kept.block block.0) }
    {
        maps::local_of(&self.local, block)
    }

    pub fn give_local(&mut self, block: BlockId, set: EventSet) -> Result<(), Memory>
        ensures ok { OnOk result (IsAlike self.new (record self.old {
          local = record { block = kept.block block.0; set = set.0 } ∷ self.old.local;
        })) }
        ensures err { OnErr result (self.new ≡ self.old) }
    {
        maps::give_local(&mut self.local, block, set)?;
        Ok(())
    }

    pub fn callback(&self, event: MonEvent) -> Option<Value>
        ensures { result ≡ callback self.now.callbacks (bit_of event) }
    {
        maps::callback_for(&self.callbacks, event)
    }

    /// Registers a callback for an event, or takes it away.
    pub fn register(&mut self, event: MonEvent, f: Option<Value>) -> Result<(), Memory>
        ensures ok { OnOk result (IsAlike self.new (record self.old {
          callbacks = with_callback (bit_of event) f self.old.callbacks;
        })) }
        ensures err { OnErr result (self.new ≡ self.old) }
    {
        match f {
            Some(f) => {
                maps::put_callback(&mut self.callbacks, event, f)?;
                self.registered.insert(event.flag());
            }
            None => self.take_away(event),
        }
        Ok(())
    }

    /// Takes the callback for an event away.
    pub fn take_away(&mut self, event: MonEvent)
        ensures { IsAlike self.new (record self.old {
          callbacks = without_callback (bit_of event) self.old.callbacks;
        }) }
    {
        maps::drop_callback(&mut self.callbacks, event);
        self.registered.remove(event.flag());
    }

    /// Whether its own set or its set for a block gives an event.
    pub fn has_event(&self, event: MonEvent, block: BlockId) -> bool
        ensures { (tool act : ℕ) → result ≡ has_event self.now (record {
          tool = tool;
          bit = bit_of event;
          block = kept.block block.0;
          act = act;
        }) }
    {
        self.set.gives(event) || maps::local_of(&self.local, block).gives(event)
    }

    /// The events that can be due somewhere in a block.
    pub fn wanted(&self, block: BlockId) -> EventSet
        ensures { (e : MonEvent) → has result.0 (bit_of e)
            ≡ can_be_due (kept.block block.0) (bit_of e) self.now }
    {
        let local = maps::local_of(&self.local, block);
        self.set
            .given()
            .union(local.given())
            .intersection(self.registered)
    }
}

impl Dup for Tool {
    fn dup(&self, alloc: Global) -> Result<Tool, Memory> {
        let name = self.name(alloc)?;
        let local = maps::copy_of_sets(&self.local)?;
        let callbacks = maps::copy_of_callbacks(&self.callbacks)?;
        Ok(Tool {
            name,
            set: self.set,
            local,
            callbacks,
            registered: self.registered,
        })
    }
}
