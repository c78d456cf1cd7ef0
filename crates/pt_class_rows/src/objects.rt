//! New objects that are given, and what is raised where there is none.
ghost use Rattle.std.specs.Prelude.{◌≡◌, codes, false, IfOk, OnOk};
ghost use Rattle.pt_bind.specs.declared.arguments.BindErr.{BindErr};
ghost use Rattle.pt_class_rows.specs.Calls.{is_memory};
ghost use Rattle.pt_class_rows.specs.Instances.{GivesNew, GivesObject, are_none, unnamed};
ghost use Rattle.pt_frames.specs.Slots.{active_in};
ghost use Rattle.pt_moves.specs.sem_rows.declared.heap_rows.progress.Progress.TheVariants as progress;
ghost use Rattle.pt_moves.specs.sem_rows.pt_host.Texts.{binding_text};
ghost use Rattle.pt_moves.specs.sem_rows.pt_host.declared.places.TheConstants.{TYPE_ERROR};

use pt_base::{Memory, ObjId, Seq, Text, What};
use pt_bind::{Args, BindErr};
use pt_frames::{Slot, Slots};
use pt_heap::{Heap, Object};
use pt_moves::{OBJECT, Progress, TYPE_ERROR, allot, binding_text, instance};
use std::alloc::Global;

/// Gives a new object.
#[tactic(auto, using(crate::proofs::ObjectLemmas::given, crate::proofs::ObjectLemmas::no_room, pt_moves::proofs::TakeLemmas::quiet_over))]
pub fn place(object: Object, slots: &mut Slots, heap: &mut Heap) -> Result<Progress, Memory>
    ensures row { IfOk result (λ p. GivesNew object slots.old heap.old p slots.new heap.new) }
    ensures active { OnOk result (active_in slots.new ≡ active_in slots.old) }
{
    match allot(heap, object)? {
        Some(value) => {
            slots.push(Slot::Value(value))?;
            Ok(Progress::Next)
        }
        None => Ok(Progress::Outside { what: What::Heap }),
    }
}

/// An exception of a class is raised that says no more than that.
pub(crate) fn bad_argument(alloc: Global, class: ObjId) -> Result<Progress, Memory>
    ensures { IfOk result (λ p. p ≡ progress.FailsSaying class (codes "bad argument")) }
{
    let text = Text::from_str(alloc, "bad argument")?;
    Ok(Progress::FailsSaying { class, text })
}

/// Whether it is want of memory.
fn is_memory(error: &BindErr) -> bool
    ensures { result ≡ is_memory error.now }
{
    match error {
        BindErr::Memory => true,
        _ => false,
    }
}

/// The arguments of a call don't fit what has this name.
pub fn refuses(alloc: Global, name: &str, error: BindErr) -> Result<Progress, Memory>
    ensures { IfOk result (λ p. (is_memory error ≡ false)
        × (p ≡ progress.FailsSaying TYPE_ERROR (binding_text name.now error))) }
{
    if is_memory(&error) {
        return Err(Memory);
    }
    let text = binding_text(alloc, name, &error)?;
    Ok(Progress::FailsSaying {
        class: TYPE_ERROR,
        text,
    })
}

/// Whether there are no arguments.
#[tactic(auto, using(crate::proofs::ObjectLemmas::none_given, crate::proofs::ObjectLemmas::some_given, crate::proofs::ObjectLemmas::some_named))]
pub(crate) fn are_none(args: &Args) -> bool
    ensures { result ≡ are_none (unnamed args.now) }
{
    if !args.named.is_empty() {
        return false;
    }
    if !args.plain.is_empty() {
        return false;
    }
    true
}

/// Makes an object of class `object`, which takes no arguments.
#[tactic(auto, using(crate::proofs::ObjectLemmas::object_made, crate::proofs::ObjectLemmas::no_object))]
pub fn make_object(
    alloc: Global,
    args: &Args,
    slots: &mut Slots,
    heap: &mut Heap,
) -> Result<Progress, Memory>
    ensures row { IfOk result
        (λ p. GivesObject args.now slots.old heap.old p slots.new heap.new) }
    ensures active { OnOk result (active_in slots.new ≡ active_in slots.old) }
{
    if !are_none(args) {
        return Ok(Progress::Outside {
            what: What::Feature,
        });
    }
    let made = instance(alloc, heap, false, OBJECT, Seq::new(alloc));
    place(made, slots, heap)
}
