//! Modules and their names (Language Reference 7.11).
ghost use Rattle.std.specs.Prelude.{◌≡◌, codes, IfOk, OnOk};
ghost use Rattle.std.specs.Str.{bytes_eq};
ghost use Rattle.pt_attribute_rows.specs.Imports.{RowsImport, RowsImportName, is_missing};
ghost use Rattle.pt_attribute_rows.specs.Imports.{no_module, no_name};
ghost use Rattle.pt_frames.specs.Slots.{active_in};

use crate::attributes::give;
use pt_base::Memory;
use pt_frames::{Slot, Slots};
use pt_function_rows::Blocks;
use pt_heap::{Heap, Value};
use pt_instr::TextNo;
use pt_moves::top_value;
use pt_prims::{Attribute, attribute_of};
use sem_rows::heap_rows::Progress;
use sem_rows::{IMPORT_ERROR, MODULE_NOT_FOUND_ERROR, SYS, no_module_text, no_name_text};
use std::alloc::Global;

/// Whether a name is that of the only module.
fn is_sys(name: &str) -> bool
    ensures { result ≡ bytes_eq name.now (codes "sys") }
{
    name == "sys"
}

/// There is no module of this name.
fn no_module(alloc: Global, name: &str) -> Result<Progress, Memory>
    ensures { IfOk result (λ p. p ≡ no_module name.now) }
{
    let text = no_module_text(alloc, name)?;
    Ok(Progress::FailsSaying {
        class: MODULE_NOT_FOUND_ERROR,
        text,
    })
}

/// Gives the module of the name that the operand names (Language Reference 7.11).
#[tactic(auto, using(crate::proofs::ImportLemmas::module_row, crate::proofs::ImportLemmas::no_module_row, pt_moves::proofs::TakeLemmas::quiet_over))]
pub fn import(
    alloc: Global,
    text: TextNo,
    name: &str,
    slots: &mut Slots,
) -> Result<Progress, Memory>
    ensures row { IfOk result (λ p. RowsImport name.now text slots.old p slots.new) }
    ensures active { OnOk result (active_in slots.new ≡ active_in slots.old) }
{
    if !is_sys(name) {
        return no_module(alloc, name);
    }
    slots.push(Slot::Value(Value::Obj(SYS)))?;
    Ok(Progress::Next)
}

fn is_missing(attribute: Attribute) -> bool
    ensures { result ≡ is_missing attribute }
{
    match attribute {
        Attribute::Missing => true,
        _ => false,
    }
}

/// A module doesn't have this name.
fn no_name(alloc: Global, name: &str) -> Result<Progress, Memory>
    ensures { IfOk result (λ p. p ≡ no_name name.now) }
{
    let text = no_name_text(alloc, name)?;
    Ok(Progress::FailsSaying {
        class: IMPORT_ERROR,
        text,
    })
}

/// Gives what the name that the operand names is in the module on top, which stays there (Language
/// Reference 7.11).
#[tactic(auto, using(crate::proofs::ImportLemmas::name_row, crate::proofs::ImportLemmas::no_name_row, crate::proofs::ImportLemmas::name_lacks))]
pub fn import_name(
    alloc: Global,
    text: TextNo,
    name: &str,
    blocks: &Blocks,
    slots: &mut Slots,
    heap: &mut Heap,
) -> Result<Progress, Memory>
    ensures row { IfOk result
        (λ p. RowsImportName blocks.now name.now text slots.old heap.old p slots.new heap.new) }
    ensures active { OnOk result (active_in slots.new ≡ active_in slots.old) }
{
    let Some(module) = top_value(slots) else {
        return Ok(Progress::Lacks);
    };
    let attribute = attribute_of(alloc, heap, module, name)?;
    if is_missing(attribute) {
        return no_name(alloc, name);
    }
    give(alloc, attribute, module, name, blocks, slots, heap)
}
