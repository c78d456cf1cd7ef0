//! Blocks' own sets of events, and callbacks, by numbers.
ghost use Rattle.std.specs.Prelude.{◌≡◌, ℕ, ◌∷◌, IfOk, OnOk, OnErr, Some, None};
ghost use Rattle.pt_heap.specs.declared.value.Value.{Value};
ghost use Rattle.sem_run.specs.run.Tools.{local_set, callback, with_callback};
ghost use Rattle.sem_run.specs.run.Machine as machine;
ghost use Rattle.pt_monitor.specs.Events.{bit_of};
ghost use Rattle.pt_monitor.specs.Kept as kept;
ghost use Rattle.pt_monitor.specs.Kept.{local_sets, callbacks_of};

use crate::{EventSet, MonEvent};
use indexmap::IndexMap;
use pt_base::{BlockId, Memory};
use pt_heap::Value;

/// The set of each block that has one of its own, by the block's number.
pub type LocalSets = IndexMap<u32, EventSet>;

/// The callback for each event that has one, by its bit.
pub type Callbacks = IndexMap<u32, Value>;

/// A block's own set.
pub fn local_of(sets: &LocalSets, block: BlockId) -> EventSet
    ensures { result.0 ≡ local_set (local_sets sets.now.entries) (kept.block block.0) }
{
    match sets.get(&block.0) {
        Some(set) => *set,
        None => EventSet(0),
    }
}

/// Gives a block a set of its own.
pub fn give_local(sets: &mut LocalSets, block: BlockId, set: EventSet) -> Result<(), Memory>
    ensures ok { OnOk result ((b : machine.BlockId) → local_set (local_sets sets.new.entries) b
        ≡ local_set (record { block = kept.block block.0; set = set.0 } ∷ local_sets sets.old.entries) b) }
    ensures err { OnErr result (sets.new.entries ≡ sets.old.entries) }
{
    sets.insert(block.0, set)?;
    Ok(())
}

/// The callback for an event.
pub fn callback_for(callbacks: &Callbacks, event: MonEvent) -> Option<Value>
    ensures { result ≡ callback (callbacks_of callbacks.now.entries) (bit_of event) }
{
    match callbacks.get(&event.bit()) {
        Some(f) => Some(*f),
        None => None,
    }
}

/// Registers a callback for an event.
pub fn put_callback(callbacks: &mut Callbacks, event: MonEvent, f: Value) -> Result<(), Memory>
    ensures ok { OnOk result ((b : ℕ) → callback (callbacks_of callbacks.new.entries) b
        ≡ callback (with_callback (bit_of event) (Some f) (callbacks_of callbacks.old.entries)) b) }
    ensures err { OnErr result (callbacks.new.entries ≡ callbacks.old.entries) }
{
    callbacks.insert(event.bit(), f)?;
    Ok(())
}

/// Takes the callback for an event away.
pub fn drop_callback(callbacks: &mut Callbacks, event: MonEvent)
    ensures { (b : ℕ) → callback (callbacks_of callbacks.new.entries) b
        ≡ callback (with_callback (bit_of event) None (callbacks_of callbacks.old.entries)) b }
{
    callbacks.swap_remove(&event.bit());
}

/// A copy of blocks' own sets.
pub fn copy_of_sets(sets: &LocalSets) -> Result<LocalSets, Memory>
    ensures { IfOk result (λ copy. copy.entries ≡ sets.now.entries) }
{
    Ok(sets.clone()?)
}

/// A copy of callbacks.
pub fn copy_of_callbacks(callbacks: &Callbacks) -> Result<Callbacks, Memory>
    ensures { IfOk result (λ copy. copy.entries ≡ callbacks.now.entries) }
{
    Ok(callbacks.clone()?)
}
