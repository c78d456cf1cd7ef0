ghost use Rattle.std.specs.Prelude.{◌≡◌, ◌∷◌, IfOk, IsSome, MatchOption, OnErr};
ghost use Rattle.pt_mappings.specs.Entering.{dict_content, entered, entered_by, unless_refused};
ghost use Rattle.pt_mappings.specs.Entering.{with_entry, HasNoPair};

use crate::keyed::{Keyed, key_in};
use pt_base::{Memory, What};
use pt_content::{Content, NewObject};
use pt_heap::{Dict, DictErr, Heap, Key, Value};
use std::alloc::Global;

/// Gives a key a value, or answers that there is no room and leaves the entries as they were.
pub fn enter_key(
    entries: &mut Dict,
    key: Key,
    first: Value,
    value: Value,
) -> Result<Option<Content>, Memory>
    ensures answer { IfOk result (λ refused.
        unless_refused refused entries.new ≡ with_entry key first value entries.old) }
    ensures refused { IfOk result (λ refused. IsSome refused → entries.new ≡ entries.old) }
    ensures err { OnErr result (entries.new ≡ entries.old) }
{
    match entries.insert(key, first, value) {
        Ok(_) => Ok(None),
        Err(DictErr::Length) => Ok(Some(Content::Outside(What::Length))),
        Err(DictErr::Memory) => Err(Memory),
    }
}

/// Gives a key a value in a dictionary, or an item None in a set. Answers what the operation does
/// where the key is refused or there is no room; the entries are then as they were.
pub fn enter(
    alloc: Global,
    heap: &Heap,
    entries: &mut Dict,
    key: Value,
    value: Value,
) -> Result<Option<Content>, Memory>
    ensures answer { IfOk result (λ refused.
        unless_refused refused entries.new ≡ entered heap.now key value entries.old) }
    ensures refused { IfOk result (λ refused. IsSome refused → entries.new ≡ entries.old) }
    ensures err { OnErr result (entries.new ≡ entries.old) }
{
    match key_in(alloc, heap, key)? {
        Keyed::Refused(content) => Ok(Some(content)),
        Keyed::Key(place) => enter_key(entries, place, key, value),
    }
}

/// The first two values, and those behind them.
fn first_pair(values: &[Value]) -> Option<(Value, Value, &[Value])>
    ensures { MatchOption result (HasNoPair values.now)
        (λ p. values.now ≡ p.0 ∷ p.1 ∷ p.2.now) }
{
    match values {
        [first, second, rest @ ..] => Some((*first, *second, rest)),
        _ => None,
    }
}

/// `{a: b}`, of keys and values in turn (Language Reference 6.2.7): the last value of a key, in the
/// place and the form in which the key is first. A TypeError for a key that has no hash.
#[tactic(auto, using(crate::proofs::DisplayLemmas::kept, crate::proofs::DisplayLemmas::stopped, crate::proofs::DisplayLemmas::ended))]
pub fn dict_content(alloc: Global, heap: &Heap, items: &[Value]) -> Result<Content, Memory>
    ensures { IfOk result (λ content. content ≡ dict_content heap.now items.now) }
{
    let mut dict = Dict::new(alloc, heap.seed());
    let mut left = items;
    while let Some((key, value, rest)) = first_pair(left) {
        if let Some(content) = enter(alloc, heap, &mut dict, key, value)? {
            return Ok(content);
        }
        left = rest;
    }
    Ok(Content::New(NewObject::Dict(dict)))
}
