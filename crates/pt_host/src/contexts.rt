//! The contexts of exceptions.

ghost use Rattle.std.specs.Prelude.{◌≡◌, slice_get};
ghost use Rattle.pt_host.specs.Errors.{arise_while, context_in, cut, with_context};

use pt_base::ObjId;
use pt_dicts::object_at;
use pt_heap::{Heap, Object};

/// The context of the exception at a place, if one stands there that has one.
fn context_at(heap: &Heap, id: ObjId) -> Option<ObjId>
    ensures { result ≡ context_in (slice_get heap.now id.0) }
{
    match object_at(heap, id) {
        Some(Object::Error(error)) => error.context,
        _ => None,
    }
}

/// Gives the exception at a place another context, or none.
#[tactic(auto, using(crate::proofs::ContextLemmas::context_put, crate::proofs::ContextLemmas::other_put_back, crate::proofs::ContextLemmas::nothing_there))]
fn set_context(heap: &mut Heap, id: ObjId, context: Option<ObjId>)
    ensures { heap.new ≡ with_context context id (slice_get heap.old id.0) heap.old }
{
    if id.0 >= heap.len() {
        return;
    }
    match heap.set(id, Object::Generator(0)) {
        Object::Error(mut error) => {
            error.context = context;
            heap.set(id, Object::Error(error));
        }
        other => {
            heap.set(id, other);
        }
    }
}

/// Cuts the chain of contexts from an exception on where it leads back to another one.
fn cut(heap: &mut Heap, back: ObjId, from: ObjId)
    ensures { heap.new ≡ cut back from heap.old }
{
    let mut at = from;
    for _step in 0..heap.len() {
        let Some(context) = context_at(heap, at) else {
            return;
        };
        if context.0 == back.0 {
            set_context(heap, at, None);
            return;
        }
        at = context;
    }
}

/// An exception that was made before arises: another one that is active becomes its context, whose
/// own contexts don't lead back to it (Language Reference 7.8; Library Reference, "Exception
/// context").
pub fn arise_while(heap: &mut Heap, active: Option<ObjId>, id: ObjId)
    ensures { heap.new ≡ arise_while active id heap.old }
{
    if let Some(context) = active
        && context.0 != id.0
    {
        cut(heap, id, context);
        set_context(heap, id, Some(context));
    }
}
