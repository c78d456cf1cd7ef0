//! The newest activation closes.
ghost use Rattle.std.specs.Prelude.{◌≡◌};
ghost use Rattle.pt_returning.specs.Returning.{closed_by};

use pt_frames::Purpose as For;
use pt_heap::Value;
use pt_opening::{Machine, Opener, Purpose, Running};
use std::mem;

/// What an activation that waited was open for: what goes on in it, what the result is for, and the
/// context of an exception that arises then; and the generator that has gone on above it, if one has.
/// And the one that has closed, of whose names a class may be made.
#[derive(Drop)]
pub struct Returned {
    pub closed: Running,
    pub purpose: Purpose,
    pub why: For,
    pub context: Option<Value>,
    pub generator: Option<u32>,
}

/// Closes the newest activation, whose block has ended, and the one that waits for it is the newest. It
/// answers what that was open for, or that none waits.
pub fn close(machine: &mut Machine) -> Option<Returned>
    ensures { record { returned = result; machine = machine.new }
        ≡ closed_by machine.old.openers machine.old }
{
    let Some(opener) = machine.openers.pop() else {
        return None;
    };
    let Opener {
        running,
        purpose,
        why,
        context,
        generator,
    } = opener;
    let Running { activation, course } = running;
    let closed = Running {
        activation: mem::replace(&mut machine.code.here, activation),
        course: machine.course,
    };
    machine.course = course;
    Some(Returned {
        closed,
        purpose,
        why,
        context,
        generator,
    })
}
