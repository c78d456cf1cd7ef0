//! Attributes that are set and deleted, and what is said of those that a value doesn't have.
ghost use Rattle.std.specs.Prelude.{◌≡◌, IfOk};
ghost use Rattle.pt_function_rows.specs.Attributes.{ComesTo, Deletes, Sets, missing_attribute};

use pt_base::{Failure, Memory, What};
use pt_content::class_name;
use pt_heap::{Heap, Value};
use pt_moves::{ATTRIBUTE_ERROR, NoAttr, Progress, delete, is_fixed, missing_text, store};
use std::alloc::Global;

/// The value has no attribute of this name.
pub fn missing(alloc: Global, heap: &Heap, value: Value, name: &str) -> Result<Progress, Memory>
    ensures { IfOk result (λ p. p ≡ missing_attribute heap.now value name.now) }
{
    let text = missing_text(alloc, class_name(heap, value), name)?;
    Ok(Progress::FailsSaying {
        class: ATTRIBUTE_ERROR,
        text,
    })
}

/// What a change of the names of a value comes to. One that means something by itself there can't be
/// changed yet.
fn changed(
    alloc: Global,
    fixed: bool,
    heap: &Heap,
    value: Value,
    name: &str,
    change: Result<(), Failure<NoAttr>>,
) -> Result<Progress, Memory>
    ensures { IfOk result (λ p. ComesTo fixed name.now value heap.now change p) }
{
    match change {
        Ok(()) if fixed => Ok(Progress::Outside {
            what: What::Feature,
        }),
        Ok(()) => Ok(Progress::Next),
        Err(Failure::Refused(_)) => missing(alloc, heap, value, name),
        Err(Failure::Memory) => Err(Memory),
    }
}

/// An attribute of a value is set (Language Reference 7.2).
#[tactic(auto, using(crate::proofs::AttributeLemmas::sets))]
pub fn put_attribute(
    alloc: Global,
    heap: &mut Heap,
    to: Value,
    name: &str,
    value: Value,
) -> Result<Progress, Memory>
    ensures { IfOk result (λ p. Sets name.now to value heap.old p heap.new) }
{
    let fixed = is_fixed(heap, to, name);
    let change = store(alloc, heap, to, name, value);
    changed(alloc, fixed, heap, to, name, change)
}

/// An attribute of a value is deleted (Language Reference 7.5).
#[tactic(auto, using(crate::proofs::AttributeLemmas::deletes))]
pub fn take_attribute(
    alloc: Global,
    heap: &mut Heap,
    from: Value,
    name: &str,
) -> Result<Progress, Memory>
    ensures { IfOk result (λ p. Deletes name.now from heap.old p heap.new) }
{
    let fixed = is_fixed(heap, from, name);
    let change = delete(alloc, heap, from, name);
    changed(alloc, fixed, heap, from, name, change)
}
