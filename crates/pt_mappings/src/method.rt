ghost use Rattle.std.specs.Prelude.{◌≡◌, IfOk};
ghost use Rattle.pt_mappings.specs.Methods.{default_by, dict_method_content, get_by, pop_by};
ghost use Rattle.pt_heap.specs.Entries.{found};
ghost use Rattle.pt_mappings.specs.Keyed.{key_in};
ghost use Rattle.pt_mappings.specs.Methods.{pop_content, popped, set_default_by, value_or, view};

use crate::entering::enter_key;
use crate::item::removed;
use crate::keyed::{Keyed, changed, key_in, or_missing};
use pt_base::{Dup, Memory, ObjId, What};
use pt_content::{Content, Helper, MethodName, Mutable, NewObject, PrimAns};
use pt_heap::{Dict, DictView, Heap, Key, Part, Value};
use std::alloc::Global;

fn value_or(default: Value, value: Option<Value>) -> Value
    ensures { result ≡ value_or default value }
{
    match value {
        Some(value) => value,
        None => default,
    }
}

/// `get`.
fn get_by(dict: &Dict, default: Value, keyed: Keyed) -> Content
    ensures { result ≡ get_by dict.now default keyed }
{
    match keyed {
        Keyed::Refused(content) => content,
        Keyed::Key(key) => Content::Value(value_or(default, dict.get(&key))),
    }
}

fn pop_by(
    alloc: Global,
    id: ObjId,
    dict: &Dict,
    otherwise: Content,
    keyed: Keyed,
) -> Result<Content, Memory>
    ensures { IfOk result (λ content. content ≡ pop_by id dict.now otherwise keyed) }
{
    let key = match keyed {
        Keyed::Refused(content) => return Ok(content),
        Keyed::Key(key) => key,
    };
    match dict.get(&key) {
        Some(value) => {
            let left = removed(alloc, dict, &key)?;
            Ok(changed(alloc, id, Mutable::Dict(left), PrimAns::Value(value)))
        }
        None => Ok(otherwise),
    }
}

/// `pop`. An empty dictionary has no key, whatever is asked for.
fn pop_content(
    alloc: Global,
    heap: &Heap,
    id: ObjId,
    dict: &Dict,
    key: Value,
    default: Option<Value>,
) -> Result<Content, Memory>
    ensures { IfOk result (λ content. content ≡ pop_content heap.now id dict.now key default) }
{
    let otherwise = or_missing(alloc, key, default);
    if dict.len() == 0 {
        return Ok(otherwise);
    }
    let keyed = key_in(alloc, heap, key)?;
    pop_by(alloc, id, dict, otherwise, keyed)
}

fn default_by(
    alloc: Global,
    id: ObjId,
    dict: &Dict,
    key: Value,
    default: Value,
    place: Key,
) -> Result<Content, Memory>
    ensures { IfOk result (λ content. content
        ≡ default_by id dict.now key default place (found place dict.now)) }
{
    if let Some(value) = dict.get(&place) {
        return Ok(Content::Value(value));
    }
    let mut copy = dict.dup(alloc)?;
    if let Some(content) = enter_key(&mut copy, place, key, default)? {
        return Ok(content);
    }
    Ok(changed(alloc, id, Mutable::Dict(copy), PrimAns::Value(default)))
}

/// `setdefault`.
fn set_default(
    alloc: Global,
    heap: &Heap,
    id: ObjId,
    dict: &Dict,
    key: Value,
    default: Value,
) -> Result<Content, Memory>
    ensures { IfOk result (λ content. content
        ≡ set_default_by id dict.now key default (key_in heap.now key)) }
{
    match key_in(alloc, heap, key)? {
        Keyed::Refused(content) => Ok(content),
        Keyed::Key(place) => default_by(alloc, id, dict, key, default, place),
    }
}

fn view(part: Part, dict: ObjId) -> Content
    ensures { result ≡ view part dict }
{
    Content::New(NewObject::View(DictView { part, dict }))
}

/// What a method of the dictionary at a place gives (Library Reference, "Mapping Types"). Outside
/// with the cause Feature for other numbers of arguments.
pub fn dict_method_content(
    alloc: Global,
    method: MethodName,
    heap: &Heap,
    id: ObjId,
    dict: &Dict,
    args: &[Value],
) -> Result<Content, Memory>
    ensures { IfOk result (λ content. content
        ≡ dict_method_content method heap.now id dict.now args.now) }
{
    match (method, args) {
        (MethodName::Get, [key]) => Ok(get_by(dict, Value::None, key_in(alloc, heap, *key)?)),
        (MethodName::Get, [key, default]) => {
            Ok(get_by(dict, *default, key_in(alloc, heap, *key)?))
        }
        (MethodName::Keys, []) => Ok(view(Part::Keys, id)),
        (MethodName::Values, []) => Ok(view(Part::Values, id)),
        (MethodName::Items, []) => Ok(view(Part::Items, id)),
        (MethodName::Pop, [key]) => pop_content(alloc, heap, id, dict, *key, None),
        (MethodName::Pop, [key, default]) => {
            pop_content(alloc, heap, id, dict, *key, Some(*default))
        }
        (MethodName::Setdefault, [key]) => set_default(alloc, heap, id, dict, *key, Value::None),
        (MethodName::Setdefault, [key, default]) => {
            set_default(alloc, heap, id, dict, *key, *default)
        }
        (MethodName::Update, [_]) => Ok(Content::Help {
            helper: Helper::UpdateOf,
            inverted: false,
        }),
        (MethodName::Clear, []) => {
            let empty = Mutable::Dict(Dict::new(alloc, dict.seed()));
            Ok(changed(alloc, id, empty, PrimAns::Value(Value::None)))
        }
        (MethodName::Copy, []) => Ok(Content::New(NewObject::Dict(dict.dup(alloc)?))),
        _ => Ok(Content::Outside(What::Feature)),
    }
}
