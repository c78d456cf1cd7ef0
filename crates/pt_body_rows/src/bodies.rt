//! Names of the bodies of the module and of classes (Language Reference 4.2.2): the body of a class
//! reads a name of the module that it doesn't bind.
ghost use Rattle.std.specs.Prelude.{◌≡◌, length, IfOk, OnOk};
ghost use Rattle.pt_body_rows.specs.Bodies.{RowsLoadName, RowsName};
ghost use Rattle.pt_frames.specs.Slots.{active_in};
ghost use Rattle.pt_instr.specs.declared.Instr.TheVariants as instr;

use crate::own::{body_value, own_value, put_own};
use pt_base::{Memory, Seq, What};
use pt_frames::{Slot, Slots};
use pt_heap::Value;
use pt_instr::TextNo;
use pt_name_rows::{
    BlockFacts, BuiltinLookup, Progress, delete_global, global, is_left_out, set_global, take_one,
    unbound_global,
};
use pt_names::Names;
use std::alloc::Global;

/// Gives the value of a name of a body, or what the name means by itself.
#[tactic(auto, using(crate::proofs::BodyLemmas::found, crate::proofs::BodyLemmas::otherwise, pt_moves::proofs::TakeLemmas::quiet_over))]
pub fn name(
    alloc: Global,
    hidden: bool,
    in_class: bool,
    text: TextNo,
    name: &str,
    lookup: BuiltinLookup,
    facts: &BlockFacts,
    locals: &Seq<Option<Value>>,
    own: &Names,
    globals: &Names,
    slots: &mut Slots,
) -> Result<Progress, Memory>
    ensures row { IfOk result
        (λ p. RowsLoadName hidden name.now lookup in_class facts.now (instr.Name text) text.0
        slots.old locals.now own.now globals.now p slots.new) }
    ensures active { OnOk result (active_in slots.new ≡ active_in slots.old) }
{
    match body_value(in_class, facts, locals, own, name) {
        Some(value) => {
            slots.push(Slot::Value(value))?;
            Ok(Progress::Next)
        }
        None => global(alloc, hidden, text, name, lookup, globals, slots),
    }
}

/// Binds a name of a body.
#[tactic(auto, using(crate::proofs::BodyLemmas::stored, crate::proofs::BodyLemmas::unbindable, crate::proofs::BodyLemmas::store_lacks, crate::proofs::BodyLemmas::stored_global))]
pub fn set_name(
    alloc: Global,
    in_class: bool,
    text: TextNo,
    name: &str,
    facts: &BlockFacts,
    locals: &mut Seq<Option<Value>>,
    own: &mut Names,
    globals: &mut Names,
    slots: &mut Slots,
) -> Result<Progress, Memory>
    ensures row { IfOk result
        (λ p. RowsName name.now in_class facts.now (instr.SetName text) text.0 slots.old
        locals.old own.old globals.old p slots.new locals.new own.new globals.new) }
    ensures active { OnOk result (active_in slots.new ≡ active_in slots.old) }
    ensures places { OnOk result (length locals.new ≡ length locals.old) }
{
    if !in_class {
        return set_global(alloc, text, name, globals, slots);
    }
    let Some(value) = take_one(slots) else {
        return Ok(Progress::Lacks);
    };
    if is_left_out(name) {
        return Ok(Progress::Outside {
            what: What::Special,
        });
    }
    put_own(alloc, facts, locals, own, name, Some(value))?;
    Ok(Progress::Next)
}

/// Unbinds a name of a body.
#[tactic(auto, using(crate::proofs::BodyLemmas::deleted, crate::proofs::BodyLemmas::delete_missing, crate::proofs::BodyLemmas::deleted_global))]
pub fn delete_name(
    alloc: Global,
    in_class: bool,
    text: TextNo,
    name: &str,
    facts: &BlockFacts,
    locals: &mut Seq<Option<Value>>,
    own: &mut Names,
    globals: &mut Names,
) -> Result<Progress, Memory>
    ensures row { IfOk result
        (λ p. (slots : _)
        → RowsName name.now in_class facts.now (instr.DelName text) text.0 slots locals.old
        own.old globals.old p slots locals.new own.new globals.new) }
    ensures places { OnOk result (length locals.new ≡ length locals.old) }
{
    if !in_class {
        return delete_global(alloc, text, name, globals);
    }
    match own_value(facts, locals, own, name) {
        Some(_) => {
            put_own(alloc, facts, locals, own, name, None)?;
            Ok(Progress::Next)
        }
        None => unbound_global(alloc, name),
    }
}
