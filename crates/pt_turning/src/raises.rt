//! A raise goes on that was held, or that no handler took.
ghost use Rattle.std.specs.Prelude.{◌≡◌, ◌-◌, length, IfOk, OnOk};
ghost use Rattle.pt_telling.specs.pt_transfers.pt_machine_state.declared.machine.Standing.TheVariants as code;
ghost use Rattle.pt_turning.specs.Turning.{behind_raise, raised_in, reraised, standing_of};

use pt_base::{Memory, Seq};
use pt_frames::Slots;
use pt_happenings::Happening;
use pt_heap::{Completion, Value};
use pt_pendings::{Origin, Pending};
use pt_telling::{BlockCode, CodeStanding, Machine, Standing, Waiting, land, tell};

/// Where code stands that a completion has left.
fn standing_of(standing: CodeStanding) -> Standing
    ensures { result ≡ standing_of standing }
{
    match standing {
        CodeStanding::AtPlace => Standing::AtPlace,
        CodeStanding::Returns(value) => Standing::Returns(value),
        CodeStanding::Raises(exception) => Standing::Raises(exception),
    }
}

/// How many slots lie below the top.
///
/// # Errors
///
/// `Memory` where that are more than 2^32 - 1.
pub fn below_top(slots: &Slots) -> Result<u32, Memory>
    ensures { IfOk result (λ n. n ≡ length slots.now - 1) }
{
    let len = slots.len();
    let below = if len == 0 { 0 } else { len - 1 };
    match u32::try_from(below) {
        Ok(below) => Ok(below),
        Err(_) => Err(Memory),
    }
}

/// A raise leaves the place of the newest activation; it answers where that stands then.
///
/// # Errors
///
/// `Memory` for want of it.
#[tactic(auto, using(crate::proofs::OnlyPlace::only_place_and_slots))]
pub fn land_raise(
    machine: &mut Machine,
    block: &BlockCode,
    exception: Value,
) -> Result<Standing, Memory>
    requires { machine.old.code.standing ≡ code.AtPlace }
    ensures machine { OnOk result (machine.new ≡ raised_in block.now exception machine.old) }
    ensures standing { IfOk result (λ s.
        s ≡ standing_of (behind_raise block.now exception machine.old).standing) }
{
    land(&mut machine.code, block, Completion::Raise(exception))?;
    let standing = standing_of(machine.code.standing);
    machine.code.standing = CodeStanding::AtPlace;
    Ok(standing)
}

/// A raise goes on from the place of the newest activation, which is told; it answers whether an
/// event is, at which hooks are to be asked.
///
/// # Errors
///
/// `Memory` for want of it.
pub fn reraise(machine: &mut Machine, block: &BlockCode, exception: Value) -> Result<bool, Memory>
    requires { machine.old.code.standing ≡ code.AtPlace }
    ensures { IfOk result (λ event. record { event = event; machine = machine.new }
        ≡ reraised block.now exception machine.old) }
{
    let active = machine.code.here.slots.active();
    let pc = machine.code.here.pc;
    let standing = land_raise(machine, block, exception)?;
    let below = below_top(&machine.code.here.slots)?;
    let told = Seq::from_slice(machine.code.alloc, &[Happening::RaisesAgain(exception)])?;
    let waiting = Waiting {
        standing,
        active,
        pending: Pending::Going {
            from: Origin { pc, below },
        },
    };
    tell(machine, block, told, waiting)
}
