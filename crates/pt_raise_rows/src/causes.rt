//! The causes of exceptions.
ghost use Rattle.std.specs.Prelude.{◌≡◌, slice_get};
ghost use Rattle.pt_moves.specs.sem_rows.pt_host.Raising.{with_cause};

use pt_base::ObjId;
use pt_heap::{Heap, Object};

/// Gives the exception at a place a cause, or None in place of one; either hides its context
/// (Language Reference 7.8).
#[tactic(auto, using(crate::proofs::CauseLemmas::cause_put, crate::proofs::CauseLemmas::other_put_back, crate::proofs::CauseLemmas::nothing_there))]
pub fn set_cause(heap: &mut Heap, id: ObjId, cause: Option<ObjId>)
    ensures { heap.new ≡ with_cause cause id (slice_get heap.old id.0) heap.old }
{
    if id.0 >= heap.len() {
        return;
    }
    match heap.set(id, Object::Generator(0)) {
        Object::Error(mut error) => {
            error.cause = cause;
            error.hides_context = true;
            heap.set(id, Object::Error(error));
        }
        other => {
            heap.set(id, other);
        }
    }
}
