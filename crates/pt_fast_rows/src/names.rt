//! Local names and names of the module that are bound (Language Reference 4.2.2, 7.2).
ghost use Rattle.std.specs.Prelude.{◌≡◌, length, IfOk};
ghost use Rattle.pt_fast_rows.specs.FastPaths.{FastGlobal, FastLoad, FastLocal, Leads};
ghost use Rattle.pt_instr.specs.declared.Instr.TheVariants as instr;

use crate::taking::take_value;
use pt_base::{Memory, Pc, Seq};
use pt_frames::{Slot, Slots};
use pt_heap::Value;
use pt_instr::{SlotNo, TextNo};
use pt_name_rows::{put_at, value_at};
use pt_names::Names;
use std::alloc::Global;

/// Gives the value of a local name.
pub fn fast_local(
    slot: SlotNo,
    next: Pc,
    locals: &Seq<Option<Value>>,
    slots: &mut Slots,
) -> Result<Option<Pc>, Memory>
    ensures { IfOk result
        (λ o. Leads next o
        (λ p. FastLocal (instr.Local slot) slot.0 p slots.old locals.now slots.new locals.now)
        (slots.new ≡ slots.old)) }
{
    match value_at(locals, slot.0 as usize) {
        Some(value) => {
            slots.push(Slot::Value(value))?;
            Ok(Some(next))
        }
        None => Ok(None),
    }
}

/// Binds a local name.
#[tactic(auto, using(crate::proofs::NameLemmas::none_stored))]
pub fn fast_set_local(
    slot: SlotNo,
    next: Pc,
    locals: &mut Seq<Option<Value>>,
    slots: &mut Slots,
) -> Option<Pc>
    ensures leads { Leads next result
        (λ p. FastLocal (instr.SetLocal slot) slot.0 p slots.old locals.old slots.new locals.new)
        ((slots.new ≡ slots.old) × (locals.new ≡ locals.old)) }
    ensures places { length locals.new ≡ length locals.old }
{
    match take_value(slots) {
        Some(value) => {
            put_at(locals, slot.0 as usize, Some(value));
            Some(next)
        }
        None => None,
    }
}

/// Gives the value of a name of the module.
pub fn fast_global(
    text: TextNo,
    name: &str,
    next: Pc,
    globals: &Names,
    slots: &mut Slots,
) -> Result<Option<Pc>, Memory>
    ensures { IfOk result
        (λ o. Leads next o
        (λ p. FastLoad name.now (instr.Global text) text.0 p slots.old globals.now slots.new)
        (slots.new ≡ slots.old)) }
{
    match globals.get_numbered(text.0 as usize, name) {
        Some(value) => {
            slots.push(Slot::Value(value))?;
            Ok(Some(next))
        }
        None => Ok(None),
    }
}

/// Binds a name of the module.
#[tactic(auto, using(crate::proofs::NameLemmas::none_bound))]
pub fn fast_set_global(
    alloc: Global,
    text: TextNo,
    name: &str,
    next: Pc,
    globals: &mut Names,
    slots: &mut Slots,
) -> Result<Option<Pc>, Memory>
    ensures { IfOk result
        (λ o. Leads next o
        (λ p. FastGlobal name.now (instr.SetGlobal text) text.0 p slots.old globals.old slots.new
        globals.new)
        ((slots.new ≡ slots.old) × (globals.new ≡ globals.old))) }
{
    match take_value(slots) {
        Some(value) => {
            globals.set_numbered(alloc, text.0 as usize, name, Some(value))?;
            Ok(Some(next))
        }
        None => Ok(None),
    }
}
