//! What a block gave is used.
ghost use Rattle.std.specs.Prelude.{◌≡◌, [], ◌∷◌, IfOk, OnOk};
ghost use Rattle.pt_giving.specs.pt_host.Primitives.{truth_in};
ghost use Rattle.pt_resuming.specs.Resuming.{LaidSo, decided_place, kept_slots, laid, place, placed_for, resumed_by, truth_place};

use pt_base::{Memory, Pc};
use pt_frames::{Purpose as For, Slot};
use pt_giving::{BlockCode, Called, Decided, Given, Machine, Received, Standing, reply};
use pt_heap::Value;
use pt_pendings::Origin;

/// The newest activation is at this place.
fn stand(machine: &mut Machine, pc: Pc)
    ensures { machine.new ≡ laid (place pc []) machine.old }
{
    machine.code.here.pc = pc;
}

/// So it is, with a slot more.
fn put(machine: &mut Machine, pc: Pc, top: Slot) -> Result<(), Memory>
    ensures { OnOk result (machine.new ≡ laid (place pc (top ∷ [])) machine.old) }
{
    machine.code.here.slots.push(top)?;
    machine.code.here.pc = pc;
    Ok(())
}

/// So it is, with two slots more.
fn put_two(machine: &mut Machine, pc: Pc, under: Slot, top: Slot) -> Result<(), Memory>
    ensures { OnOk result (machine.new ≡ laid (place pc (top ∷ under ∷ [])) machine.old) }
{
    machine.code.here.slots.push(under)?;
    machine.code.here.slots.push(top)?;
    machine.code.here.pc = pc;
    Ok(())
}

/// So it is, with what is kept.
fn put_kept(machine: &mut Machine, pc: Pc, kept: Option<Value>) -> Result<(), Memory>
    ensures { OnOk result (machine.new ≡ laid (place pc (kept_slots kept)) machine.old) }
{
    match kept {
        Some(value) => put(machine, pc, Slot::Value(value)),
        None => {
            stand(machine, pc);
            Ok(())
        }
    }
}

/// A truth leads to this place if it is as wanted, and else behind the instruction.
fn decide(
    machine: &mut Machine,
    next: Pc,
    wanted: bool,
    target: Pc,
    kept: Option<Value>,
    truth: bool,
) -> Result<(), Memory>
    ensures { OnOk result
        (machine.new ≡ laid (decided_place wanted target kept next truth) machine.old) }
{
    match (wanted, truth) {
        (true, true) | (false, false) => put_kept(machine, target, kept),
        (true, false) | (false, true) => {
            stand(machine, next);
            Ok(())
        }
    }
}

/// So does a value's, if it is one.
fn lay_truth(
    machine: &mut Machine,
    next: Pc,
    wanted: bool,
    target: Pc,
    kept: Option<Value>,
    value: Value,
) -> Result<bool, Memory>
    ensures { IfOk result (λ there. LaidSo (truth_place wanted target kept next (truth_in value))
        machine.old there machine.new) }
{
    match value {
        Value::Bool(truth) => {
            decide(machine, next, wanted, target, kept, truth)?;
            Ok(true)
        }
        _ => Ok(false),
    }
}

/// The newest activation goes where a block's value leads that was called for this; it answers whether
/// it does.
fn lay(machine: &mut Machine, next: Pc, why: &For, value: Value) -> Result<bool, Memory>
    ensures { IfOk result (λ there. LaidSo (placed_for why.now next value) machine.old there
        machine.new) }
{
    match why {
        For::Iterate => {
            put(machine, next, Slot::Iter(value))?;
            Ok(true)
        }
        For::Item { iterator, end: _ } => {
            put_two(machine, next, Slot::Iter(*iterator), Slot::Value(value))?;
            Ok(true)
        }
        For::Discard => {
            stand(machine, next);
            Ok(true)
        }
        For::Enter { exit } => {
            put_two(machine, next, Slot::With(*exit), Slot::Value(value))?;
            Ok(true)
        }
        For::Truth {
            wanted,
            target,
            kept,
        } => lay_truth(machine, next, *wanted, *target, *kept, value),
        _ => Ok(false),
    }
}

/// Uses what a block gave for the ask that waited for it in the newest activation, of this block,
/// behind which this place stands. What was called is this, if it was a call, and what is decided. What
/// else it was called for is handed back.
///
/// # Errors
///
/// `Memory` for want of it.
#[tactic(auto, using(crate::proofs::Laying::where_there, crate::proofs::Laying::where_left))]
pub fn resume(
    machine: &mut Machine,
    block: &BlockCode,
    next: Pc,
    value: Value,
    why: &For,
    called: Option<Called>,
    is_act: bool,
    decided: Decided,
) -> Result<Received, Memory>
    ensures { IfOk result (λ r. record { received = r; machine = machine.new }
        ≡ resumed_by block.now next value why.now called is_act decided machine.old) }
{
    let Ok(below) = u32::try_from(machine.code.here.slots.len()) else {
        return Err(Memory);
    };
    let from = Origin {
        pc: machine.code.here.pc,
        below,
    };
    let active = machine.code.here.slots.active();
    if !lay(machine, next, why, value)? {
        return Ok(Received::Further);
    }
    let given = Given {
        called,
        stops: None,
        decided,
    };
    let event = reply(
        machine,
        block,
        given,
        is_act,
        Standing::AtPlace,
        active,
        from,
    )?;
    Ok(Received::Goes { event })
}
