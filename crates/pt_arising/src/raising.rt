//! An exception arises in place of a reply.
ghost use Rattle.std.specs.Prelude.{◌≡◌, IfOk};
ghost use Rattle.pt_replying.specs.pt_turning.pt_telling.pt_transfers.pt_machine_state.declared.machine.Standing.TheVariants as code;
ghost use Rattle.pt_arising.specs.Arising.{arisen, arising_told};

use pt_base::{Memory, Seq};
use pt_happenings::Happening;
use pt_heap::Value;
use pt_pendings::{Origin, Pending};
use pt_replying::{BlockCode, Called, Machine, Waiting, below_top, land_raise, tell_on};
use std::alloc::Global;

/// What is told of it.
fn told_of(
    alloc: Global,
    called: Option<Called>,
    is_act: bool,
    exception: Value,
) -> Result<Seq<Happening>, Memory>
    ensures { IfOk result (λ told. told ≡ arising_told called is_act exception) }
{
    let arises = Happening::Raises(exception);
    match called {
        Some(called) if is_act && called.told.builtin => {
            let from = Happening::RaisesFrom {
                callee: called.function,
                first: called.told.first,
            };
            Seq::from_slice(alloc, &[from, arises])
        }
        _ => Seq::from_slice(alloc, &[arises]),
    }
}

/// An exception arises in place of the reply to what was asked at the place of the newest activation,
/// of this block: it lands from there, and is told, behind a call of a builtin. Its slots are those
/// below what was taken, and this exception was active in it as it was asked. It answers whether an
/// event is told, at which hooks are to be asked; where none is, the activation goes on.
///
/// # Errors
///
/// `Memory` for want of it.
pub fn arise(
    machine: &mut Machine,
    block: &BlockCode,
    exception: Value,
    called: Option<Called>,
    is_act: bool,
    active: Option<Value>,
) -> Result<bool, Memory>
    requires { machine.old.code.standing ≡ code.AtPlace }
    ensures { IfOk result (λ event. record { event = event; machine = machine.new }
        ≡ arisen block.now exception called is_act active machine.old) }
{
    let told = told_of(machine.code.alloc, called, is_act, exception)?;
    let pc = machine.code.here.pc;
    let standing = land_raise(machine, block, exception)?;
    let below = below_top(&machine.code.here.slots)?;
    let waiting = Waiting {
        standing,
        active,
        pending: Pending::Going {
            from: Origin { pc, below },
        },
    };
    tell_on(machine, block, told, waiting)
}
