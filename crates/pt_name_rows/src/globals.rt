//! Names of the module, by their texts.
ghost use Rattle.std.specs.Prelude.{◌≡◌, IfOk, OnOk};
ghost use Rattle.pt_frames.specs.Slots.{active_in};
ghost use Rattle.pt_instr.specs.declared.Instr.TheVariants as instr;
ghost use Rattle.pt_name_rows.specs.Names.{RowsGlobal, RowsLoadGlobal, seen_value};

use crate::unbound::unbound_global;
use pt_base::{Memory, What};
use pt_builtins::BuiltinLookup;
use pt_frames::{Slot, Slots};
use pt_heap::Value;
use pt_instr::TextNo;
use pt_moves::{Progress, take_one};
use pt_names::Names;
use std::alloc::Global;

/// The value of a name of the module, of which a hidden block sees none.
fn global_value(hidden: bool, text: TextNo, name: &str, globals: &Names) -> Option<Value>
    ensures { result ≡ seen_value hidden name.now globals.now }
{
    if hidden {
        return None;
    }
    globals.get_numbered(text.0 as usize, name)
}

/// Gives the value of a name of the module, or what the name means by itself.
#[tactic(auto, using(crate::proofs::GlobalLemmas::found, crate::proofs::GlobalLemmas::builtin_found, crate::proofs::GlobalLemmas::builtin_unavailable, crate::proofs::GlobalLemmas::missing, pt_moves::proofs::TakeLemmas::quiet_over))]
pub fn global(
    alloc: Global,
    hidden: bool,
    text: TextNo,
    name: &str,
    lookup: BuiltinLookup,
    globals: &Names,
    slots: &mut Slots,
) -> Result<Progress, Memory>
    ensures row { IfOk result
        (λ p. RowsLoadGlobal hidden name.now lookup (instr.Global text) text.0 slots.old globals.now
        p slots.new) }
    ensures active { OnOk result (active_in slots.new ≡ active_in slots.old) }
{
    match global_value(hidden, text, name, globals) {
        Some(value) => {
            slots.push(Slot::Value(value))?;
            Ok(Progress::Next)
        }
        None => match lookup {
            BuiltinLookup::Found(value) => {
                slots.push(Slot::Value(value))?;
                Ok(Progress::Next)
            }
            BuiltinLookup::Unavailable => Ok(Progress::Outside {
                what: What::Feature,
            }),
            BuiltinLookup::Unbound => unbound_global(alloc, name),
        },
    }
}

/// Binds a name of the module.
#[tactic(auto, using(crate::proofs::GlobalLemmas::stored, crate::proofs::GlobalLemmas::store_lacks))]
pub fn set_global(
    alloc: Global,
    text: TextNo,
    name: &str,
    globals: &mut Names,
    slots: &mut Slots,
) -> Result<Progress, Memory>
    ensures row { IfOk result
        (λ p. RowsGlobal name.now (instr.SetGlobal text) text.0 slots.old globals.old p slots.new
        globals.new) }
    ensures active { OnOk result (active_in slots.new ≡ active_in slots.old) }
{
    match take_one(slots) {
        Some(value) => {
            globals.set_numbered(alloc, text.0 as usize, name, Some(value))?;
            Ok(Progress::Next)
        }
        None => Ok(Progress::Lacks),
    }
}

/// Unbinds a name of the module.
#[tactic(auto, using(crate::proofs::GlobalLemmas::deleted, crate::proofs::GlobalLemmas::delete_missing))]
pub fn delete_global(
    alloc: Global,
    text: TextNo,
    name: &str,
    globals: &mut Names,
) -> Result<Progress, Memory>
    ensures { IfOk result
        (λ p. (slots : _)
        → RowsGlobal name.now (instr.DelGlobal text) text.0 slots globals.old p slots
        globals.new) }
{
    match globals.get_numbered(text.0 as usize, name) {
        Some(_) => {
            globals.set_numbered(alloc, text.0 as usize, name, None)?;
            Ok(Progress::Next)
        }
        None => unbound_global(alloc, name),
    }
}
