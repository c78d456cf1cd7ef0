//! A raise goes on that was held.
ghost use Rattle.std.specs.Prelude.{◌≡◌, IfOk};
ghost use Rattle.pt_closing.specs.pt_beginning.pt_machine_state.declared.machine.Standing.TheVariants as code;
ghost use Rattle.pt_closing.specs.pt_turning.Turning.{going, reraised};
ghost use Rattle.pt_advancing.specs.Proceeding.{has_place, raised_if, told_on};

use crate::onward::{Advanced, tell_and_proceed};
use pt_base::{Memory, Pc, Seq};
use pt_closing::{BlockCode, Machine, Standing, Waiting, below_top, land_raise};
use pt_happenings::Happening;
use pt_heap::Value;
use pt_pendings::{Origin, Pending};

/// Whether an instruction stands at a place of a block.
fn has_place(block: &BlockCode, pc: Pc) -> bool
    ensures { result ≡ has_place block.now pc }
{
    match block.places.at(pc) {
        Some(_) => true,
        None => false,
    }
}

/// A raise leaves the place of the newest activation, and that is told.
fn raise_from_place(
    machine: &mut Machine,
    block: &BlockCode,
    exception: Value,
) -> Result<Advanced, Memory>
    requires { machine.old.code.standing ≡ code.AtPlace }
    ensures { IfOk result (λ a. record { advanced = a; machine = machine.new }
        ≡ told_on block.now (going block.now exception machine.old)
        (reraised block.now exception machine.old)) }
{
    let active = machine.code.here.slots.active();
    let pc = machine.code.here.pc;
    let standing = land_raise(machine, block, exception)?;
    let below = below_top(&machine.code.here.slots)?;
    let told = Seq::from_slice(machine.code.alloc, &[Happening::RaisesAgain(exception)])?;
    let waiting = Waiting {
        standing,
        active,
        pending: Pending::Going {
            from: Origin { pc, below },
        },
    };
    tell_and_proceed(machine, block, told, waiting)
}

/// The exception goes on from the place of the newest activation, where an instruction stands there.
///
/// # Errors
///
/// `Memory` for want of it.
pub fn go_on_raising(
    machine: &mut Machine,
    block: &BlockCode,
    exception: Value,
) -> Result<Advanced, Memory>
    requires { machine.old.code.standing ≡ code.AtPlace }
    ensures { IfOk result (λ a. record { advanced = a; machine = machine.new }
        ≡ raised_if (has_place block.now machine.old.code.here.pc) block.now exception
        machine.old) }
{
    if has_place(block, machine.code.here.pc) {
        raise_from_place(machine, block, exception)
    } else {
        Ok(Advanced::AtInstruction(Standing::Reraises(exception)))
    }
}
