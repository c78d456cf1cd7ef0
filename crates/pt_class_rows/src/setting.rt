//! Attributes that are set by texts (Library Reference, `setattr`).
ghost use Rattle.std.specs.Prelude.{◌≡◌, IfOk, OnOk};
ghost use Rattle.pt_class_rows.specs.Instances.{SetsHere, SetsNamed};
ghost use Rattle.pt_frames.specs.Slots.{active_in};

use crate::objects::bad_argument;
use pt_base::{Failure, Memory, Text, What};
use pt_bind::Args;
use pt_content::{store, text_of};
use pt_frames::{Slot, Slots};
use pt_function_rows::missing;
use pt_heap::{Heap, Value};
use pt_moves::{Progress, TYPE_ERROR, is_fixed};
use std::alloc::Global;

/// Sets an attribute of a value. A name that means something by itself there isn't set yet.
#[tactic(auto, using(crate::proofs::SettingLemmas::set_here, crate::proofs::SettingLemmas::fixed_here, crate::proofs::SettingLemmas::missing_here, pt_moves::proofs::TakeLemmas::quiet_over))]
fn set_here(
    alloc: Global,
    to: Value,
    name: &str,
    value: Value,
    slots: &mut Slots,
    heap: &mut Heap,
) -> Result<Progress, Memory>
    ensures row { IfOk result
        (λ p. SetsHere name.now to value slots.old heap.old p slots.new heap.new) }
    ensures active { OnOk result (active_in slots.new ≡ active_in slots.old) }
{
    let fixed = is_fixed(heap, to, name);
    match store(alloc, heap, to, name, value) {
        Ok(()) => {
            if fixed {
                return Ok(Progress::Outside {
                    what: What::Feature,
                });
            }
            slots.push(Slot::Value(Value::None))?;
            Ok(Progress::Next)
        }
        Err(Failure::Refused(_)) => missing(alloc, heap, to, name),
        Err(Failure::Memory) => Err(Memory),
    }
}

/// `setattr`, of a value, a text and the new value of its attribute.
#[tactic(auto, using(crate::proofs::SettingLemmas::named_set, crate::proofs::SettingLemmas::other_arguments, crate::proofs::SettingLemmas::some_named, crate::proofs::SettingLemmas::no_text))]
pub fn call_setattr(
    alloc: Global,
    args: &Args,
    slots: &mut Slots,
    heap: &mut Heap,
) -> Result<Progress, Memory>
    ensures row { IfOk result
        (λ p. SetsNamed args.now slots.old heap.old p slots.new heap.new) }
    ensures active { OnOk result (active_in slots.new ≡ active_in slots.old) }
{
    if !args.named.is_empty() {
        return Ok(Progress::Outside {
            what: What::Feature,
        });
    }
    let values = args.plain.as_slice();
    if values.len() != 3 {
        return Ok(Progress::Outside {
            what: What::Feature,
        });
    }
    let name = match text_of(heap, values[1]) {
        Some(name) => Text::from_str(alloc, name.text().as_str())?,
        None => return bad_argument(alloc, TYPE_ERROR),
    };
    set_here(alloc, values[0], name.as_str(), values[2], slots, heap)
}
