//! What names mean that neither a block nor the module binds (Library Reference, "Built-in
//! Functions", "Built-in Constants", "Built-in Exceptions").
#![tactic(auto)]

ghost use Rattle.std.specs.Prelude.{◌≡◌, ◌<◌, length, map, option_map, position, IfSome};
ghost use Rattle.std.specs.Str.{bytes_eq};
ghost use Rattle.pt_bind.specs.NameSets.{is_among};
ghost use Rattle.pt_builtins.specs.Lookups.{IsWrittenAs, builtin_view, is_builtin_name, is_unbuilt_name};
ghost use Rattle.pt_host.specs.Builtins.{at_place, builtin, listed_builtin, meaning, start_object};

use pt_base::ObjId;
use pt_builtin_objects::{Kind, START};
use pt_heap::Value;
use pt_helper_objects::hidden_place;
use pt_tables::builtins;

/// What a name means by itself.
#[derive(Clone, Copy, Debug, PartialEq, Eq)]
pub enum BuiltinLookup {
    Found(Value),
    /// Runs don't have it.
    Unavailable,
    /// It is no builtin's.
    Unbound,
}

/// The names of the Library Reference that runs don't have.
const UNBUILT: [&str; 30] = [
    "open",
    "input",
    "eval",
    "exec",
    "id",
    "hash",
    "dir",
    "vars",
    "globals",
    "locals",
    "compile",
    "bytes",
    "bytearray",
    "complex",
    "float",
    "frozenset",
    "memoryview",
    "slice",
    "property",
    "staticmethod",
    "classmethod",
    "round",
    "pow",
    "format",
    "bin",
    "hex",
    "oct",
    "ascii",
    "help",
    "delattr",
];

/// Whether a name is one of a list.
fn is_listed(names: &[&str], name: &str) -> bool
    ensures { result ≡ is_among (map (λ n. n.now) names.now) name.now }
{
    for listed in names {
        if name == *listed {
            return true;
        }
    }
    false
}

/// Whether a name is one of the Library Reference that runs don't have. They leave the profile
/// where such a name is read and nothing binds it.
pub fn is_unbuilt_name(name: &str) -> bool
    ensures { result ≡ is_unbuilt_name name.now }
{
    is_listed(&UNBUILT, name)
}

/// The place of the first row with this name.
fn place_in(rows: &[(&str, Kind)], name: &str) -> Option<usize>
    ensures place { result ≡ position (bytes_eq name.now) (map (λ r. r.0.now) rows.now) }
    ensures within { IfSome result (λ place. place < length rows.now) }
{
    for at in 0..rows.len() {
        if name == rows[at].0 {
            return Some(at);
        }
    }
    None
}

/// One of the objects that each run starts with.
fn start_object(name: &str) -> BuiltinLookup
    ensures { builtin_view result ≡ start_object name.now }
{
    match place_in(&START, name) {
        Some(place) => BuiltinLookup::Found(Value::Obj(ObjId(place as u32))),
        None => BuiltinLookup::Unavailable,
    }
}

/// The object at a place, if there is one.
fn at_place(place: Option<ObjId>) -> BuiltinLookup
    ensures { builtin_view result ≡ at_place (option_map (λ id. id.0) place) }
{
    match place {
        Some(place) => BuiltinLookup::Found(Value::Obj(place)),
        None => BuiltinLookup::Unavailable,
    }
}

/// The function that a builtin is which is written in Python.
fn written_function(name: &str) -> Option<&'static str>
    ensures { IsWrittenAs name.now (option_map (λ x. x.now) result) }
{
    match name {
        "sum" => Some("sum_of"),
        "min" => Some("min_of"),
        "max" => Some("max_of"),
        "any" => Some("any_of"),
        "all" => Some("all_of"),
        "sorted" => Some("sorted_of"),
        _ => None,
    }
}

fn listed_builtin(name: &str) -> BuiltinLookup
    ensures { builtin_view result ≡ listed_builtin name.now }
{
    if name == "NotImplemented" {
        return BuiltinLookup::Found(Value::NotImplemented);
    }
    if name == "Ellipsis" {
        return BuiltinLookup::Found(Value::Ellipsis);
    }
    if is_unbuilt_name(name) {
        return BuiltinLookup::Unavailable;
    }
    match written_function(name) {
        Some(function) => at_place(hidden_place(function)),
        None => start_object(name),
    }
}

fn is_builtin_name(name: &str) -> bool
    ensures { result ≡ is_builtin_name name.now }
{
    match builtins().get(name) {
        Some(_) => true,
        None => false,
    }
}

/// What a name means by itself, the same throughout a run: also `__name__`, the name of the
/// module that runs (Library Reference, "__main__"). It takes a search through the tables of
/// builtins, of which there are about 90.
pub fn builtin(name: &str) -> BuiltinLookup
    ensures { builtin_view result ≡ builtin name.now }
{
    if is_builtin_name(name) {
        return listed_builtin(name);
    }
    if name == "__name__" {
        start_object("__main__")
    } else {
        BuiltinLookup::Unbound
    }
}

/// What a name means by itself in a hidden block, or in another: in a function that is written in
/// Python one of these, else what they alone ask, else a builtin.
pub fn meaning(hidden: bool, name: &str) -> BuiltinLookup
    ensures { builtin_view result ≡ meaning hidden name.now }
{
    if hidden {
        match hidden_place(name) {
            Some(place) => at_place(Some(place)),
            None => builtin(name),
        }
    } else {
        builtin(name)
    }
}

pub use pt_host::{NAME_ERROR, UNBOUND_LOCAL_ERROR, free_text, local_text, name_text};
