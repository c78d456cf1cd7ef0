//! The newest activation waits for one of a block.
ghost use Rattle.std.specs.Prelude.{◌≡◌, ◌<◌, suc, length, OnOk};
ghost use Rattle.sem_run.specs.run.State.{most_activations};
ghost use Rattle.pt_opening.specs.Opening.{opened};

use pt_base::{ActNo, BlockId, Memory};
use pt_bind::Locals;
use pt_frames::{Purpose as For, Slot};
use pt_heap::Value;
use pt_hearing::{Course, Machine, Opener, Purpose, Running};
use std::mem;

/// What an activation waits for.
#[derive(Drop)]
pub struct Wanted {
    pub purpose: Purpose,
    /// What the result is for, and the context of an exception that arises then.
    pub why: For,
    pub context: Option<Value>,
}

/// A block opens above the newest activation, which waits for this. Where all frame numbers were
/// given it answers Memory.
///
/// # Errors
///
/// `Memory` for want of it.
pub fn open(
    machine: &mut Machine,
    iterates: bool,
    block: BlockId,
    hidden: bool,
    locals: Locals,
    wanted: Wanted,
) -> Result<(), Memory>
    requires { suc (length machine.old.openers) < most_activations }
    ensures { OnOk result
        (machine.new ≡ opened iterates block hidden locals wanted machine.old) }
{
    let mut above = machine.code.frames.fresh(block, hidden, locals)?;
    if iterates {
        above.slots.push(Slot::Iter(Value::None))?;
    }
    let activation = mem::replace(&mut machine.code.here, above);
    let course = machine.course;
    machine.course = Course {
        act: ActNo(0),
        behind_jump: false,
        generator: false,
    };
    machine.openers.push(Opener {
        running: Running { activation, course },
        purpose: wanted.purpose,
        why: wanted.why,
        context: wanted.context,
        generator: None,
    })
}
