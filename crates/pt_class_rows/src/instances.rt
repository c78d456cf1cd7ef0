//! Instances of classes of scripts, up to the call of `__init__` (Language Reference 3.3.1).
ghost use Rattle.std.specs.Prelude.{◌≡◌, slice_get, Some, false, IfOk, OnOk};
ghost use Rattle.pt_class_rows.specs.Calls.{is_memory};
ghost use Rattle.pt_class_rows.specs.Instances.{MakesBare, MakesInstance};
ghost use Rattle.pt_content.specs.pt_attrs.pt_dicts.Chain.{class_in};
ghost use Rattle.pt_frames.specs.Slots.{active_in};
ghost use Rattle.pt_heap.specs.declared.object.Class.{Class};
ghost use Rattle.pt_moves.specs.sem_rows.declared.heap_rows.progress.Progress.TheVariants as progress;
ghost use Rattle.pt_moves.specs.sem_rows.pt_host.Calls.{parameters_without};
ghost use Rattle.pt_moves.specs.sem_rows.pt_host.Texts.{binding_text};
ghost use Rattle.pt_moves.specs.sem_rows.pt_host.declared.places.TheConstants.{TYPE_ERROR};

use crate::objects::{place, refuses};
use pt_base::{Memory, ObjId, Seq, What};
use pt_bind::{Args, BindErr, Params, bind_with};
use pt_content::class_at;
use pt_frames::Slots;
use pt_heap::{Heap, Value};
use pt_moves::{BASE_EXCEPTION, Found, Progress, allot, derives, initializer, instance};
use std::alloc::Global;

/// What a class without `__init__` takes: only an exception takes arguments.
fn parameters_without(alloc: Global, is_exception: bool) -> Params
    ensures { result ≡ parameters_without is_exception }
{
    Params {
        plain: Seq::new(alloc),
        only: Seq::new(alloc),
        star: is_exception,
        stars: false,
        defaults: Seq::new(alloc),
    }
}

/// The arguments don't fit a class.
fn class_refuses(
    alloc: Global,
    heap: &Heap,
    class: ObjId,
    error: BindErr,
) -> Result<Progress, Memory>
    ensures { IfOk result (λ p. (c : Class) → class_in (slice_get heap.now class.0) ≡ Some c
        → (is_memory error ≡ false) × (p ≡ progress.FailsSaying TYPE_ERROR (binding_text c.name error))) }
{
    match class_at(heap, class) {
        Some(class) => refuses(alloc, class.name.as_str(), error),
        None => refuses(alloc, "", error),
    }
}

/// Makes an instance of a class without `__init__`.
#[tactic(auto, using(crate::proofs::InstanceLemmas::bare_made, crate::proofs::InstanceLemmas::bare_refused))]
fn make_bare(
    alloc: Global,
    class: ObjId,
    is_exception: bool,
    args: &Args,
    slots: &mut Slots,
    heap: &mut Heap,
) -> Result<Progress, Memory>
    ensures row { IfOk result
        (λ p. MakesBare is_exception class args.now slots.old heap.old p slots.new heap.new) }
    ensures active { OnOk result (active_in slots.new ≡ active_in slots.old) }
{
    let params = parameters_without(alloc, is_exception);
    match bind_with(alloc, &params, &[], args) {
        Ok(_) => {
            let values = Seq::from_slice(alloc, args.plain.as_slice())?;
            let made = instance(alloc, heap, is_exception, class, values);
            place(made, slots, heap)
        }
        Err(error) => class_refuses(alloc, heap, class, error),
    }
}

/// What a call of a class of a script comes to up to the call of its `__init__`.
#[derive(Debug, Drop)]
pub enum Instance {
    /// There is none, or it can't be called.
    Done(Progress),
    /// This function is called with the instance and the arguments.
    Initialized { function: Value, made: Value },
}

/// Makes an instance of a class of a script.
#[tactic(auto, using(crate::proofs::InstanceLemmas::initialized, crate::proofs::InstanceLemmas::bare_called, crate::proofs::InstanceLemmas::no_room, crate::proofs::InstanceLemmas::plain_initializer, crate::proofs::InstanceLemmas::unbuilt_initializer))]
pub fn make_instance(
    alloc: Global,
    class: ObjId,
    args: &Args,
    slots: &mut Slots,
    heap: &mut Heap,
) -> Result<Instance, Memory>
    ensures row { IfOk result
        (λ i. MakesInstance class args.now slots.old heap.old i slots.new heap.new) }
    ensures active { OnOk result (active_in slots.new ≡ active_in slots.old) }
{
    let is_exception = derives(heap, BASE_EXCEPTION, class);
    match initializer(alloc, heap, class)? {
        None => {
            let progress = make_bare(alloc, class, is_exception, args, slots, heap)?;
            Ok(Instance::Done(progress))
        }
        Some(Found::Bound(function)) => {
            let values = Seq::from_slice(alloc, args.plain.as_slice())?;
            let made = instance(alloc, heap, is_exception, class, values);
            match allot(heap, made)? {
                Some(made) => Ok(Instance::Initialized { function, made }),
                None => Ok(Instance::Done(Progress::Outside { what: What::Heap })),
            }
        }
        Some(Found::Plain(_)) => Ok(Instance::Done(Progress::Outside {
            what: What::Feature,
        })),
        Some(Found::Unbuilt) => Ok(Instance::Done(Progress::Outside {
            what: What::Feature,
        })),
    }
}
