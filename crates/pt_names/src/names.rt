ghost use Rattle.std.specs.Prelude.{◌≡◌, ◌++◌, ◌∷◌, [], None, Some, IsSome, IfOk, OnOk, OnErr};
ghost use Rattle.std.specs.Prelude.{take, true, length, ◌<◌, ◌+◌, string_bytes, string_eq};
ghost use Rattle.std.specs.Str.{bytes_eq};
ghost use Rattle.std.specs.Map.{set_value};
ghost use Rattle.indexmap.specs.IndexMap.{get_by_text, insert_entry, set_value_at, IsUnique};
ghost use Rattle.pt_names.specs.Names.{bindings_of, by_text, name_value, place_of, value_in_place};
ghost use Rattle.pt_names.specs.Names.{with_place};

use crate::hints::{give_hint, hint_at, make_hint};
use indexmap::IndexMap;
use pt_base::{Dup, Memory, Seq, Text};
use pt_heap::{Binding, Seed, Value};
use std::alloc::Global;
use std::marker::Model;

/// Names by their texts, each with its value.
pub type NameMap = IndexMap<String, Option<Value>, Seed>;

/// Gives a name that is there a value, or none.
fn write(map: &mut NameMap, name: &str, value: Option<Value>)
    requires { IsSome (get_by_text map.old name.now) }
    ensures entries { map.new.entries
        ≡ set_value (λ k. bytes_eq name.now (string_bytes k)) map.old.entries value }
    ensures unique { IsUnique string_eq map.old → IsUnique string_eq map.new }
{
    if let Some(place) = map.get_mut(name) {
        *place = value;
    }
}

/// Puts a name that isn't there behind the others.
fn append(alloc: Global, map: &mut NameMap, name: &str, value: Option<Value>) -> Result<(), Memory>
    requires { get_by_text map.old name.now ≡ None }
    ensures ok { OnOk result
        (by_text map.new.entries ≡ by_text map.old.entries ++ (name.now, value) ∷ []) }
    ensures err { OnErr result (map.new.entries ≡ map.old.entries) }
    ensures unique { IsUnique string_eq map.old → IsUnique string_eq map.new }
{
    let name = String::from_str(alloc, name)?;
    map.insert(name, value)?;
    Ok(())
}

/// A copy of names.
fn copy_of(alloc: Global, map: &NameMap) -> Result<NameMap, Memory>
    requires { IsUnique string_eq map.now }
    ensures entries { IfOk result (λ copy. by_text copy.entries ≡ by_text map.now.entries) }
    ensures unique { IfOk result (λ copy. IsUnique string_eq copy) }
{
    let mut copy = IndexMap::with_hasher(alloc, *map.hasher());
    for at in 0..map.len() {
        copy_name(alloc, map, at, &mut copy)?;
    }
    Ok(copy)
}

/// Copies the name behind those that are copied.
fn copy_name(alloc: Global, map: &NameMap, at: usize, copy: &mut NameMap) -> Result<(), Memory>
    requires at { at < length map.now.entries }
    requires unique { IsUnique string_eq map.now }
    requires before { by_text copy.old.entries ≡ by_text (take at map.now.entries) }
    ensures entries { OnOk result
        (by_text copy.new.entries ≡ by_text (take (at + 1) map.now.entries)) }
    ensures unique { IsUnique string_eq copy.old → IsUnique string_eq copy.new }
{
    if let Some((name, value)) = map.get_index(at) {
        append(alloc, copy, name.as_str(), *value)?;
    }
    Ok(())
}

/// The place of a name, if it has one.
fn place_in(map: &NameMap, name: &str) -> Option<usize>
    ensures { result ≡ place_of name.now (by_text map.now.entries) }
{
    map.get_index_of(name)
}

/// Whether a name stands at a place.
fn stands_at(map: &NameMap, place: usize, name: &str) -> bool
    requires { IsUnique string_eq map.now }
    ensures { result ≡ true → place_of name.now (by_text map.now.entries) ≡ Some place }
{
    match map.get_index(place) {
        Some((there, _)) => there.as_str() == name,
        None => false,
    }
}

/// The value of the name at a place, if the place and a value are there.
fn value_in(map: &NameMap, place: usize) -> Option<Value>
    ensures { result ≡ value_in_place place (by_text map.now.entries) }
{
    match map.get_index(place) {
        Some((_, value)) => *value,
        None => None,
    }
}

/// Gives the name at a place a value, or none.
fn write_at(map: &mut NameMap, place: usize, value: Option<Value>)
    ensures entries { map.new.entries ≡ set_value_at map.old.entries place value }
    ensures unique { IsUnique string_eq map.old → IsUnique string_eq map.new }
{
    if let Some(old) = map.get_index_mut(place) {
        *old = value;
    }
}

/// Puts the binding of a name behind others, if the name is bound.
fn push_bound(
    alloc: Global,
    bindings: &mut Seq<Binding>,
    name: &str,
    value: Option<Value>,
) -> Result<(), Memory>
    ensures { OnOk result
        (bindings.new ≡ bindings.old ++ bindings_of ((name.now, value) ∷ [])) }
{
    match value {
        Some(value) => {
            let name = Text::from_str(alloc, name)?;
            bindings.push(Binding { name, value })
        }
        None => Ok(()),
    }
}

/// Puts the binding of the name behind those that are gone through behind theirs.
fn push_binding(
    alloc: Global,
    map: &NameMap,
    at: usize,
    bindings: &mut Seq<Binding>,
) -> Result<(), Memory>
    requires at { at < length map.now.entries }
    requires before { bindings.old ≡ bindings_of (by_text (take at map.now.entries)) }
    ensures { OnOk result (bindings.new ≡ bindings_of (by_text (take (at + 1) map.now.entries))) }
{
    if let Some((name, value)) = map.get_index(at) {
        push_bound(alloc, bindings, name.as_str(), *value)?;
    }
    Ok(())
}

/// The names that are bound, with their values.
fn bindings_in(alloc: Global, map: &NameMap) -> Result<Seq<Binding>, Memory>
    ensures { IfOk result (λ bindings. bindings ≡ bindings_of (by_text map.now.entries)) }
{
    let mut bindings = Seq::new(alloc);
    for at in 0..map.len() {
        push_binding(alloc, map, at, &mut bindings)?;
    }
    Ok(bindings)
}

/// Names with their values. A name that is unbound again keeps its place, without a value.
/// Contracts see the list of the names, in the order in which each was first bound or given a
/// place.
#[derive(Drop)]
pub struct Names {
    map: NameMap,
    /// By the number of its text, the place that a name had when it was last looked up by its text.
    /// It is tried first, and nothing is answered by it alone.
    hints: Seq<u32>,
}

impl Model for Names {
    ghost use Rattle.std.specs.Prelude.{List, Option, ℕ, string_eq};
    ghost use Rattle.indexmap.specs.IndexMap.{IsUnique};
    ghost use Rattle.pt_heap.specs.declared.value.Value.{Value as OfName};
    ghost use Rattle.pt_names.specs.Names.{by_text};

    ghost Value = { List (List ℕ × Option OfName) };

    ghost view = { λ n. by_text n.map.entries };

    ghost invariant = { λ n. IsUnique string_eq n.map };
}

impl Names {
    /// No names. It takes no memory until it grows.
    pub fn new(alloc: Global, seed: Seed) -> Names
        ensures { result ≡ [] }
    {
        Names {
            map: IndexMap::with_hasher(alloc, seed),
            hints: Seq::new(alloc),
        }
    }

    /// The value of a name, which is found in constant time by its text.
    pub fn get(&self, name: &str) -> Option<Value>
        ensures { result ≡ name_value name.now self.now }
    {
        match self.map.get(name) {
            Some(value) => *value,
            None => None,
        }
    }

    /// The place of a name, which is put behind the others, without a value, where it has none.
    pub fn place(&mut self, alloc: Global, name: &str) -> Result<usize, Memory>
        ensures place { IfOk result (λ place. place_of name.now self.new ≡ Some place) }
        ensures ok { OnOk result (self.new ≡ with_place name.now self.old) }
        ensures err { OnErr result (self.new ≡ self.old) }
    {
        match place_in(&self.map, name) {
            Some(place) => Ok(place),
            None => {
                let place = self.map.len();
                append(alloc, &mut self.map, name, None)?;
                Ok(place)
            }
        }
    }

    /// The value of the name at a place, if the place and a value are there. Neither the text of
    /// the name nor a hash is needed.
    pub fn value_at(&self, place: usize) -> Option<Value>
        ensures { result ≡ value_in_place place self.now }
    {
        value_in(&self.map, place)
    }

    /// Binds the name at a place, or unbinds it. Where the place isn't there, nothing changes.
    pub fn set_at(&mut self, place: usize, value: Option<Value>)
        ensures { self.new ≡ set_value_at self.old place value }
    {
        write_at(&mut self.map, place, value);
    }

    /// The names that are bound, with their values.
    pub fn bindings(&self, alloc: Global) -> Result<Seq<Binding>, Memory>
        ensures { IfOk result (λ bindings. bindings ≡ bindings_of self.now) }
    {
        bindings_in(alloc, &self.map)
    }

    /// Binds a name, or unbinds it.
    pub fn set(&mut self, alloc: Global, name: &str, value: Option<Value>) -> Result<(), Memory>
        ensures ok { OnOk result (self.new ≡ insert_entry bytes_eq self.old name.now value) }
        ensures err { OnErr result (self.new ≡ self.old) }
    {
        match self.map.get(name) {
            Some(_) => {
                write(&mut self.map, name, value);
                Ok(())
            }
            None => {
                append(alloc, &mut self.map, name, value)?;
                Ok(())
            }
        }
    }

    /// The value of a name, as `get` gives it. Where the name was bound by the number of its text,
    /// it is found without a hash.
    pub fn get_numbered(&self, number: usize, name: &str) -> Option<Value>
        ensures { result ≡ name_value name.now self.now }
    {
        let place = hint_at(&self.hints, number);
        if stands_at(&self.map, place, name) {
            return value_in(&self.map, place);
        }
        self.get(name)
    }

    /// Binds a name, or unbinds it, as `set` does. From then on it is found by the number of its
    /// text.
    pub fn set_numbered(
        &mut self,
        alloc: Global,
        number: usize,
        name: &str,
        value: Option<Value>,
    ) -> Result<(), Memory>
        ensures ok { OnOk result (self.new ≡ insert_entry bytes_eq self.old name.now value) }
        ensures err { OnErr result (self.new ≡ self.old) }
    {
        let place = hint_at(&self.hints, number);
        if stands_at(&self.map, place, name) {
            write_at(&mut self.map, place, value);
            return Ok(());
        }
        make_hint(&mut self.hints, number)?;
        self.set(alloc, name, value)?;
        give_hint(&mut self.hints, number, place_in(&self.map, name));
        Ok(())
    }
}

impl Dup for Names {
    fn dup(&self, alloc: Global) -> Result<Names, Memory> {
        let map = copy_of(alloc, &self.map)?;
        Ok(Names {
            map,
            hints: Seq::new(alloc),
        })
    }
}
