ghost use Rattle.std.specs.Prelude.{◌≡◌, IfOk};
ghost use Rattle.pt_sets.specs.Methods.{set_method_content, taken, taken_by};

use crate::members::{add_content, sought};
use pt_base::{Dup, Memory, ObjId, What};
use pt_content::{Content, MethodName, Mutable, NewObject, PrimAns};
use pt_heap::{Dict, Heap, Key, Value};
use pt_mappings::{Keyed, changed, missing, removed};
use std::alloc::Global;

/// Takes an item out, if it is there.
fn taken(
    alloc: Global,
    id: ObjId,
    set: &Dict,
    key: &Key,
    otherwise: Content,
) -> Result<Content, Memory>
    ensures { IfOk result (λ content. content ≡ taken id set.now key.now otherwise) }
{
    if set.get(key).is_none() {
        return Ok(otherwise);
    }
    let left = removed(alloc, set, key)?;
    let done = PrimAns::Value(Value::None);
    Ok(changed(alloc, id, Mutable::Set(left), done))
}

fn taken_by(
    alloc: Global,
    id: ObjId,
    set: &Dict,
    otherwise: Content,
    keyed: Option<Keyed>,
) -> Result<Content, Memory>
    ensures { IfOk result (λ content. content ≡ taken_by id set.now otherwise keyed) }
{
    match keyed {
        Some(Keyed::Key(key)) => taken(alloc, id, set, &key, otherwise),
        Some(Keyed::Refused(content)) => Ok(content),
        None => Ok(otherwise),
    }
}

/// What a method of the set at a place gives (Library Reference, "Set Types"). Outside with the
/// cause Feature for other numbers of arguments.
pub fn set_method_content(
    alloc: Global,
    method: MethodName,
    heap: &Heap,
    id: ObjId,
    set: &Dict,
    args: &[Value],
) -> Result<Content, Memory>
    ensures { IfOk result (λ content. content
        ≡ set_method_content method heap.now id set.now args.now) }
{
    match (method, args) {
        (MethodName::Add, [item]) => add_content(alloc, heap, id, set, *item),
        (MethodName::Discard, [item]) => {
            let keyed = sought(alloc, heap, *item)?;
            taken_by(alloc, id, set, Content::Value(Value::None), keyed)
        }
        (MethodName::Remove, [item]) => {
            let keyed = sought(alloc, heap, *item)?;
            taken_by(alloc, id, set, missing(alloc, *item), keyed)
        }
        (MethodName::Clear, []) => {
            let empty = Mutable::Set(Dict::new(alloc, set.seed()));
            Ok(changed(alloc, id, empty, PrimAns::Value(Value::None)))
        }
        (MethodName::Copy, []) => Ok(Content::New(NewObject::Set(set.dup(alloc)?))),
        _ => Ok(Content::Outside(What::Feature)),
    }
}
