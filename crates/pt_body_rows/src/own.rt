//! Names that the body of a class binds itself (Language Reference 4.2.2).
ghost use Rattle.std.specs.Prelude.{◌≡◌, length, IfOk, OnOk};
ghost use Rattle.pt_body_rows.specs.Bodies.{body_value, locals_with, names_with, own_value, place_in};

use pt_base::{Memory, Seq, Text};
use pt_heap::Value;
use pt_name_rows::{BlockFacts, put_at, value_at};
use pt_names::Names;
use std::alloc::Global;

/// The number of a local name, if it is one that has a place.
#[tactic(auto, using(crate::proofs::OwnLemmas::place_found, crate::proofs::OwnLemmas::place_next, crate::proofs::OwnLemmas::no_more_places, crate::proofs::OwnLemmas::no_more_names, crate::proofs::OwnLemmas::place_from_first))]
fn place_in(names: &[Text], values: &[Option<Value>], name: &str) -> Option<usize>
    ensures { result ≡ place_in name.now names.now values.now }
{
    for at in 0..names.len() {
        if at >= values.len() {
            return None;
        }
        if name == names[at].as_str() {
            return Some(at);
        }
    }
    None
}

/// The value of a name that the body of a class binds itself.
pub fn own_value(
    facts: &BlockFacts,
    locals: &Seq<Option<Value>>,
    own: &Names,
    name: &str,
) -> Option<Value>
    ensures { result ≡ own_value facts.now.locals name.now locals.now own.now }
{
    match place_in(facts.locals.as_slice(), locals.as_slice(), name) {
        Some(place) => value_at(locals, place),
        None => own.get(name),
    }
}

/// The value that a body has of its own for a name, which the module has among its globals.
pub fn body_value(
    in_class: bool,
    facts: &BlockFacts,
    locals: &Seq<Option<Value>>,
    own: &Names,
    name: &str,
) -> Option<Value>
    ensures { result ≡ body_value in_class facts.now.locals name.now locals.now own.now }
{
    if in_class {
        own_value(facts, locals, own, name)
    } else {
        None
    }
}

/// Binds a name in the body of a class, or unbinds it.
pub fn put_own(
    alloc: Global,
    facts: &BlockFacts,
    locals: &mut Seq<Option<Value>>,
    own: &mut Names,
    name: &str,
    value: Option<Value>,
) -> Result<(), Memory>
    ensures locals { OnOk result (locals.new
        ≡ locals_with (place_in name.now facts.now.locals locals.old) value locals.old) }
    ensures own { OnOk result (own.new
        ≡ names_with (place_in name.now facts.now.locals locals.old) name.now value own.old) }
    ensures places { OnOk result (length locals.new ≡ length locals.old) }
{
    match place_in(facts.locals.as_slice(), locals.as_slice(), name) {
        Some(place) => {
            put_at(locals, place, value);
            Ok(())
        }
        None => own.set(alloc, name, value),
    }
}
