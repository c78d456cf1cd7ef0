//! The exception that is active is raised again.
ghost use Rattle.std.specs.Prelude.{◌≡◌, IfOk};
ghost use Rattle.pt_failing.specs.pt_arising.pt_replying.pt_turning.pt_telling.pt_transfers.pt_machine_state.declared.machine.Standing.TheVariants as code;
ghost use Rattle.pt_failing.specs.Failing.{FailsSo};
ghost use Rattle.pt_reraising.specs.Raising.{RaisesSo, again_told, alone, none_active, raised_again};

use pt_base::{Memory, Seq, Text};
use pt_failing::{
    BlockCode, Failed, Failing, Machine, Progress, RUNTIME_ERROR, Waiting, below_top, context_of,
    fail, land_raise, tell_on,
};
use pt_happenings::Happening;
use pt_heap::Value;
use pt_pendings::{Origin, Pending};
use std::alloc::Global;

/// What is told of it, of an act alone.
fn again_told(alloc: Global, exception: Value, is_act: bool) -> Result<Seq<Happening>, Memory>
    ensures { IfOk result (λ told. told ≡ again_told is_act exception) }
{
    if is_act {
        Seq::from_slice(alloc, &[Happening::RaisesAgain(exception)])
    } else {
        Ok(Seq::new(alloc))
    }
}

/// An exception goes on from the place of the newest activation, which is told.
fn raise_on(
    machine: &mut Machine,
    block: &BlockCode,
    exception: Value,
    is_act: bool,
    active: Option<Value>,
) -> Result<bool, Memory>
    requires { machine.old.code.standing ≡ code.AtPlace }
    ensures { IfOk result (λ event. record { event = event; machine = machine.new }
        ≡ raised_again block.now exception is_act active machine.old) }
{
    let told = again_told(machine.code.alloc, exception, is_act)?;
    let pc = machine.code.here.pc;
    let standing = land_raise(machine, block, exception)?;
    let below = below_top(&machine.code.here.slots)?;
    let waiting = Waiting {
        standing,
        active,
        pending: Pending::Going {
            from: Origin { pc, below },
        },
    };
    tell_on(machine, block, told, waiting)
}

/// No exception is active: a RuntimeError arises.
fn refuse(
    machine: &mut Machine,
    block: &BlockCode,
    is_act: bool,
    active: Option<Value>,
) -> Result<Failed, Memory>
    requires { machine.old.code.standing ≡ code.AtPlace }
    ensures { IfOk result (λ r. FailsSo block.now none_active (alone is_act active) machine.old r
        machine.new) }
{
    let text = Text::from_str(machine.code.alloc, "no active exception")?;
    let failure = Progress::FailsSaying {
        class: RUNTIME_ERROR,
        text,
    };
    let failing = Failing {
        called: None,
        is_act,
        active,
    };
    let failed = fail(machine, block, failure, failing)?;
    Ok(failed)
}

/// Does what `raise` alone came to in the newest activation, of this block, where this exception is
/// active: the one that is active in the run goes on, or a RuntimeError arises.
///
/// # Errors
///
/// `Memory` for want of it.
#[tactic(auto, using(crate::proofs::Active::where_active, crate::proofs::Active::where_none))]
pub fn raise_again(
    machine: &mut Machine,
    block: &BlockCode,
    is_act: bool,
    active: Option<Value>,
) -> Result<Failed, Memory>
    requires { machine.old.code.standing ≡ code.AtPlace }
    ensures { IfOk result (λ r. RaisesSo block.now is_act active machine.old r machine.new) }
{
    match context_of(machine, active) {
        Some(exception) => {
            let event = raise_on(machine, block, exception, is_act, active)?;
            Ok(Failed::Goes { event })
        }
        None => {
            let failed = refuse(machine, block, is_act, active)?;
            Ok(failed)
        }
    }
}
