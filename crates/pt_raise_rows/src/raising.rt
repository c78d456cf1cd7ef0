//! What `raise` comes to (Language Reference 7.8).
ghost use Rattle.std.specs.Prelude.{◌≡◌, false, true, IfOk};
ghost use Rattle.pt_moves.specs.sem_rows.pt_host.Raising.{raisable, standing};
ghost use Rattle.pt_moves.specs.sem_rows.pt_host.declared.raising.Raisable.TheVariants as Raisable;
ghost use Rattle.pt_raise_rows.specs.Raised.{CausedBy, IsStanding, RaisedBy, neither_raised};

use crate::causes::set_cause;
use pt_base::{Memory, ObjId, Seq, Text, What};
use pt_heap::{Heap, Value};
use pt_moves::{Progress, Raisable, TYPE_ERROR, allot, error, initializer, raisable_of};
use std::alloc::Global;

/// What a value stands for where an exception is asked for.
#[derive(Clone, Copy, Debug, PartialEq, Eq)]
pub enum Standing {
    Exception(ObjId),
    Neither,
    Outside(What),
}

/// A new exception of a class, without arguments.
#[tactic(auto, using(crate::proofs::RaiseLemmas::made_standing, crate::proofs::RaiseLemmas::no_room))]
fn make(alloc: Global, heap: &mut Heap, class: ObjId) -> Result<Standing, Memory>
    ensures { IfOk result (λ s. IsStanding (standing (Raisable.Class class false) heap.old) s
        heap.new) }
{
    let exception = error(alloc, heap, class, Seq::new(alloc), None, None);
    match allot(heap, exception)? {
        Some(Value::Obj(id)) => Ok(Standing::Exception(id)),
        Some(_) => Ok(Standing::Neither),
        None => Ok(Standing::Outside(What::Heap)),
    }
}

/// The same of a script's class. One that begins its instances by code of its own isn't called yet.
#[tactic(auto, using(crate::proofs::RaiseLemmas::made_scripted, crate::proofs::RaiseLemmas::has_initializer))]
fn make_scripted(alloc: Global, heap: &mut Heap, class: ObjId) -> Result<Standing, Memory>
    ensures { IfOk result (λ s. IsStanding (standing (Raisable.Class class true) heap.old) s
        heap.new) }
{
    match initializer(alloc, heap, class)? {
        Some(_) => Ok(Standing::Outside(What::Feature)),
        None => make(alloc, heap, class),
    }
}

/// The exception that a value stands for: a class of exceptions is called.
fn standing_of(alloc: Global, heap: &mut Heap, value: Value) -> Result<Standing, Memory>
    ensures { IfOk result (λ s. IsStanding (standing (raisable heap.old value) heap.old) s
        heap.new) }
{
    match raisable_of(heap, value) {
        Raisable::Exception(id) => Ok(Standing::Exception(id)),
        Raisable::Class {
            class,
            scripted: true,
        } => make_scripted(alloc, heap, class),
        Raisable::Class {
            class,
            scripted: false,
        } => make(alloc, heap, class),
        Raisable::Neither => Ok(Standing::Neither),
    }
}

/// It is no exception.
fn neither(alloc: Global) -> Result<Progress, Memory>
    ensures { IfOk result (λ p. p ≡ neither_raised) }
{
    let text = Text::from_str(alloc, "exceptions must derive from BaseException")?;
    Ok(Progress::FailsSaying {
        class: TYPE_ERROR,
        text,
    })
}

/// Raises an exception, perhaps from a cause.
#[tactic(auto, using(crate::proofs::RaiseLemmas::without_cause, crate::proofs::RaiseLemmas::without_context, crate::proofs::RaiseLemmas::caused, crate::proofs::RaiseLemmas::no_cause, crate::proofs::RaiseLemmas::cause_outside))]
fn raise_from(
    alloc: Global,
    heap: &mut Heap,
    exception: ObjId,
    cause: Option<Value>,
) -> Result<Progress, Memory>
    ensures { IfOk result (λ p. CausedBy exception cause heap.old p heap.new) }
{
    match cause {
        None => Ok(Progress::Raises { exception }),
        Some(Value::None) => {
            set_cause(heap, exception, None);
            Ok(Progress::Raises { exception })
        }
        Some(cause) => match standing_of(alloc, heap, cause)? {
            Standing::Exception(cause) => {
                set_cause(heap, exception, Some(cause));
                Ok(Progress::Raises { exception })
            }
            Standing::Neither => neither(alloc),
            Standing::Outside(what) => Ok(Progress::Outside { what }),
        },
    }
}

/// Raises what a value stands for, perhaps from a cause.
#[tactic(auto, using(crate::proofs::RaiseLemmas::raised, crate::proofs::RaiseLemmas::not_raised, crate::proofs::RaiseLemmas::raised_outside))]
pub fn raise_value(
    alloc: Global,
    heap: &mut Heap,
    value: Value,
    cause: Option<Value>,
) -> Result<Progress, Memory>
    ensures { IfOk result (λ p. RaisedBy value cause heap.old p heap.new) }
{
    match standing_of(alloc, heap, value)? {
        Standing::Exception(exception) => raise_from(alloc, heap, exception, cause),
        Standing::Neither => neither(alloc),
        Standing::Outside(what) => Ok(Progress::Outside { what }),
    }
}
