//! Activations begin and end.
ghost use Rattle.std.specs.Prelude.{◌≡◌, ◌<◌, [], length, None, IfSome, OnOk};
ghost use Rattle.pt_frames.specs.Limits.{activation_limit};
ghost use Rattle.pt_machine_state.specs.Changes.{given_back, opened, suspended};
ghost use Rattle.pt_machine_state.specs.declared.machine.Standing.TheVariants as standing;

use pt_base::{BlockId, Memory, Pc};
use pt_bind::Locals;
use pt_frames::{Activation, Purpose, Slot};
use pt_heap::Value;
use pt_machine_state::{Machine, Standing};
use std::mem;

/// A block opens above the newest activation, which waits (Language Reference 4.1, 6.3.4). Where
/// all frame numbers were given it answers Memory.
///
/// # Errors
///
/// `Memory` for want of it.
pub fn open(
    machine: &mut Machine,
    iterates: bool,
    block: BlockId,
    hidden: bool,
    locals: Locals,
    why: Purpose,
) -> Result<(), Memory>
    requires { length machine.old.frames.activations < activation_limit }
    ensures { OnOk result (machine.new ≡ opened iterates block hidden locals why machine.old) }
{
    let mut above = machine.frames.fresh(block, hidden, locals)?;
    if iterates {
        above.slots.push(Slot::Iter(Value::None))?;
    }
    let here = mem::replace(&mut machine.here, above);
    machine.frames.enter(here, why)
}

/// The activation that waits is the newest again, at its call. It answers the one that was the
/// newest, and what that was for; None where none waits.
pub fn resume(machine: &mut Machine) -> Option<(Activation, Purpose)>
    ensures resumes { IfSome result (λ r. (r.0 ≡ machine.old.here)
        × (machine.old ≡ suspended machine.old.here machine.old.standing r.1 machine.new)
        × (machine.new.standing ≡ standing.AtPlace)) }
    ensures alone { result ≡ None
        → (machine.old.frames.activations ≡ []) × (machine.new ≡ machine.old) }
{
    if machine.frames.depth() == 0 {
        return None;
    }
    let (here, why) = machine.frames.leave();
    let closed = mem::replace(&mut machine.here, here);
    machine.standing = Standing::AtPlace;
    Some((closed, why))
}

/// The newest activation goes on behind a call with its value.
///
/// # Errors
///
/// `Memory` for want of it.
pub fn give_back(machine: &mut Machine, next: Pc, value: Value) -> Result<(), Memory>
    ensures { OnOk result (machine.new ≡ given_back next value machine.old) }
{
    machine.here.slots.push(Slot::Value(value))?;
    machine.here.pc = next;
    Ok(())
}
