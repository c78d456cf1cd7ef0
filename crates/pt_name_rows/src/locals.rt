//! Local names, by their numbers.
ghost use Rattle.std.specs.Prelude.{◌≡◌, length, slice_get, slice_set, IfOk, OnOk};
ghost use Rattle.std.specs.Option.{option_flatten};
ghost use Rattle.pt_frames.specs.Slots.{active_in};
ghost use Rattle.pt_instr.specs.declared.Instr.TheVariants as instr;
ghost use Rattle.pt_name_rows.specs.Names.{RowsLocal};

use crate::unbound::{name_at, unbound_local};
use pt_base::{Memory, Seq};
use pt_code_facts::BlockFacts;
use pt_frames::{Slot, Slots};
use pt_heap::Value;
use pt_instr::SlotNo;
use pt_moves::{Progress, take_one};
use std::alloc::Global;

/// The value at a number, if there is one.
pub fn value_at(values: &Seq<Option<Value>>, number: usize) -> Option<Value>
    ensures { result ≡ option_flatten (slice_get values.now number) }
{
    match values.get(number) {
        Some(value) => *value,
        None => None,
    }
}

/// Puts a value, or none, at a number, where there is such a place.
pub fn put_at(values: &mut Seq<Option<Value>>, number: usize, value: Option<Value>)
    ensures { values.new ≡ slice_set values.old number value }
{
    if number < values.len() {
        values.set(number, value);
    }
}

/// Gives the value of a local name.
#[tactic(auto, using(crate::proofs::LocalLemmas::found, crate::proofs::LocalLemmas::missing, pt_moves::proofs::TakeLemmas::quiet_over))]
pub fn local(
    alloc: Global,
    slot: SlotNo,
    facts: &BlockFacts,
    locals: &Seq<Option<Value>>,
    slots: &mut Slots,
) -> Result<Progress, Memory>
    ensures row { IfOk result
        (λ p. RowsLocal facts.now slot.0 (instr.Local slot) slots.old locals.now p slots.new
        locals.now) }
    ensures active { OnOk result (active_in slots.new ≡ active_in slots.old) }
{
    let number = slot.0 as usize;
    match value_at(locals, number) {
        Some(value) => {
            slots.push(Slot::Value(value))?;
            Ok(Progress::Next)
        }
        None => unbound_local(alloc, name_at(&facts.locals, number)),
    }
}

/// Binds a local name.
#[tactic(auto, using(crate::proofs::LocalLemmas::stored, crate::proofs::LocalLemmas::store_lacks))]
pub fn set_local(slot: SlotNo, locals: &mut Seq<Option<Value>>, slots: &mut Slots) -> Progress
    ensures row { (facts : _) → RowsLocal facts slot.0 (instr.SetLocal slot) slots.old locals.old
        result slots.new locals.new }
    ensures active { active_in slots.new ≡ active_in slots.old }
    ensures places { length locals.new ≡ length locals.old }
{
    match take_one(slots) {
        Some(value) => {
            put_at(locals, slot.0 as usize, Some(value));
            Progress::Next
        }
        None => Progress::Lacks,
    }
}

/// Unbinds a local name.
#[tactic(auto, using(crate::proofs::LocalLemmas::deleted, crate::proofs::LocalLemmas::delete_missing))]
pub fn delete_local(
    alloc: Global,
    slot: SlotNo,
    facts: &BlockFacts,
    locals: &mut Seq<Option<Value>>,
) -> Result<Progress, Memory>
    ensures row { IfOk result
        (λ p. (slots : _)
        → RowsLocal facts.now slot.0 (instr.DelLocal slot) slots locals.old p slots
        locals.new) }
    ensures places { OnOk result (length locals.new ≡ length locals.old) }
{
    let number = slot.0 as usize;
    match value_at(locals, number) {
        Some(_) => {
            put_at(locals, number, None);
            Ok(Progress::Next)
        }
        None => unbound_local(alloc, name_at(&facts.locals, number)),
    }
}

/// Makes a local name anew, without a value (Language Reference 6.2.4).
#[tactic(auto, using(crate::proofs::LocalLemmas::made_anew))]
pub fn fresh_local(slot: SlotNo, locals: &mut Seq<Option<Value>>) -> Progress
    ensures row { (facts : _) → (slots : _)
        → RowsLocal facts slot.0 (instr.FreshLocal slot) slots locals.old result slots
        locals.new }
    ensures places { length locals.new ≡ length locals.old }
{
    put_at(locals, slot.0 as usize, None);
    Progress::Next
}
