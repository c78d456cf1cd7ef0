//! An exception that a hook raises takes the place of what waits.
ghost use Rattle.std.specs.Prelude.{◌≡◌, IfOk, OnOk};
ghost use Rattle.pt_closing.specs.pt_turning.pt_telling.pt_transfers.pt_machine_state.declared.machine.Standing.TheVariants as code;
ghost use Rattle.pt_pendings.specs.Pendings.{instead_of};
ghost use Rattle.pt_hearing.specs.Raising.{at_origin, hook_raised, in_place, landed_from};
ghost use Rattle.pt_hearing.specs.Raising.{unset};

use pt_base::{Memory, Seq};
use pt_closing::{
    BlockCode, Hook, Machine, Phase, Waiting, enter_told, land_raise, tell, trace_failed,
};
use pt_happenings::Happening;
use pt_heap::Value;
use pt_pendings::{End, Instead, Origin, Pending};

/// What came of a raise.
#[derive(Clone, Copy)]
pub enum Raised {
    /// The activation goes on by its next turn.
    Goes,
    /// An event is told, at which hooks are to be asked.
    Event,
    /// Nothing more is told, and this goes on.
    Onward(Waiting),
    /// The exception leaves the block, and nothing is told.
    Closes(Value),
}

/// The newest activation stands at an origin.
fn go_to_origin(machine: &mut Machine, from: Origin)
    ensures { machine.new ≡ at_origin from machine.old }
{
    machine.code.here.slots.cut(from.below as usize);
    machine.code.here.pc = from.pc;
}

/// A raise comes from an origin, and lands.
fn raise_from(
    machine: &mut Machine,
    block: &BlockCode,
    from: Origin,
    exception: Value,
) -> Result<(), Memory>
    requires { machine.old.code.standing ≡ code.AtPlace }
    ensures { OnOk result (machine.new ≡ landed_from block.now exception from machine.old) }
{
    go_to_origin(machine, from);
    let standing = land_raise(machine, block, exception)?;
    machine.phase = Phase::Turning { standing };
    Ok(())
}

/// A hook's exception takes the place of what waits in the newest activation, of this block, whose
/// ask, if it has one, comes from this origin.
///
/// # Errors
///
/// `Memory` for want of it.
pub fn raise_in_place(
    machine: &mut Machine,
    block: &BlockCode,
    waiting: Waiting,
    asked: Origin,
    exception: Value,
) -> Result<Raised, Memory>
    requires { machine.old.code.standing ≡ code.AtPlace }
    ensures { IfOk result (λ raised. record { raised = raised; machine = machine.new }
        ≡ in_place block.now exception (instead_of waiting.pending asked) waiting machine.old) }
{
    match waiting.pending.instead(asked) {
        Instead::Lands { from } => {
            raise_from(machine, block, from, exception)?;
            Ok(Raised::Goes)
        }
        Instead::Unwinds => {
            let left = Waiting {
                standing: waiting.standing,
                active: waiting.active,
                pending: Pending::Ending {
                    end: End::LeftBy(exception),
                },
            };
            let told = Seq::from_slice(machine.code.alloc, &[Happening::Unwinds(exception)])?;
            if tell(machine, block, told, left)? {
                return Ok(Raised::Event);
            }
            Ok(Raised::Onward(left))
        }
        Instead::Closes => Ok(Raised::Closes(exception)),
    }
}

/// A trace function that raises is unset.
fn unset(machine: &mut Machine, hook: Hook)
    ensures { machine.new ≡ unset hook machine.old }
{
    match hook {
        Hook::Tracer => trace_failed(machine),
        Hook::Tool(_) => {}
    }
}

/// A hook that was asked raises: its exception comes to the newest frame, in place of what waits
/// there; a trace function is unset.
///
/// # Errors
///
/// `Memory` for want of it.
pub fn hook_raised(
    machine: &mut Machine,
    block: &BlockCode,
    hook: Hook,
    waiting: Waiting,
    asked: Origin,
    exception: Value,
) -> Result<Raised, Memory>
    requires { machine.old.code.standing ≡ code.AtPlace }
    ensures { IfOk result (λ raised. record { raised = raised; machine = machine.new }
        ≡ hook_raised block.now exception hook asked waiting machine.old) }
{
    unset(machine, hook);
    enter_told(machine, block, Happening::Raises(exception))?;
    raise_in_place(machine, block, waiting, asked, exception)
}
