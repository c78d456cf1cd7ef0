//! The chain of exceptions that is reported with one.

ghost use Rattle.std.specs.Prelude.{◌≡◌, IfOk, map, slice_get};
ghost use Rattle.std.specs.Option.{option_copied};
ghost use Rattle.pt_tracebacks.specs.Chain.{chain, earlier, error_in};

use crate::Role;
use pt_base::{Memory, ObjId};
use pt_dicts::object_at;
use pt_heap::{Error, Heap, Object};
use std::alloc::Global;

/// An exception of a chain, and what it is to the one that it is reported before.
#[derive(Clone, Copy)]
pub struct Link<'a> {
    pub error: &'a Error,
    pub role: Role,
}

/// The exception at a place, if one stands there.
fn error_at(heap: &Heap, id: ObjId) -> Option<&Error>
    ensures { option_copied result ≡ error_in (slice_get heap.now id.0) }
{
    match object_at(heap, id) {
        Some(Object::Error(error)) => Some(error),
        _ => None,
    }
}

/// What is reported before an exception: its cause, or else its context, unless `from` hides that.
fn earlier(error: &Error) -> Option<(ObjId, Role)>
    ensures { result ≡ earlier error.now }
{
    if let Some(id) = error.cause {
        return Some((id, Role::Cause));
    }
    if error.hides_context {
        return None;
    }
    match error.context {
        Some(id) => Some((id, Role::Context)),
        None => None,
    }
}

/// The chain from an exception to the earliest one, in time linear in it and in the heap.
pub fn chain<'a>(alloc: Global, heap: &'a Heap, first: ObjId) -> Result<Vec<Link<'a>>, Memory>
    ensures { IfOk result (λ v. map (λ l. (l.error.now, l.role)) v.items ≡ chain heap.now first) }
{
    let mut links = Vec::new(alloc);
    let mut held = vec![in alloc; false; heap.len() as usize]?;
    let mut at = first;
    let mut role = Role::Last;
    for _step in 0..heap.len() {
        let Some(error) = error_at(heap, at) else {
            return Ok(links);
        };
        let place = at.0 as usize;
        if held[place] {
            return Ok(links);
        }
        held[place] = true;
        links.push(Link { error, role })?;
        let Some((id, of_id)) = earlier(error) else {
            return Ok(links);
        };
        at = id;
        role = of_id;
    }
    Ok(links)
}
