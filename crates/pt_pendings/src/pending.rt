use crate::reply::{Callee, End, Reply};
use pt_base::Pc;
use pt_heap::Value;

/// From where a raise comes: a place of a block's code, with so many of the lowest slots.
#[derive(Clone, Copy)]
pub struct Origin {
    pub pc: Pc,
    pub below: u32,
}

/// What waits in an activation while events are told.
#[derive(Clone, Copy)]
pub enum Pending {
    /// The block begins.
    Starting,
    /// The ask at its place is to be done; if it is a call, this is told of it.
    Doing { callee: Option<Callee> },
    /// It goes on where it stands. An exception in place of what it goes on from comes from there.
    Going { from: Origin },
    /// The ask at its place gives a value on.
    GivingOn { value: Value },
    /// The ask at its place, which gave a value on, goes on with what comes back.
    GoingOn { reply: Reply },
    /// The block ends.
    Ending { end: End },
}

/// What a raise of a hook does in place of what waits.
#[derive(Clone, Copy)]
pub enum Instead {
    /// It is a raise from there.
    Lands { from: Origin },
    /// The block is left by it, and that is told.
    Unwinds,
    /// The block is left by it, and nothing more is told.
    Closes,
}

impl Pending {
    ghost use Rattle.std.specs.Prelude.{◌≡◌};
    ghost use Rattle.pt_pendings.specs.Pendings.{instead_of};

    /// What a raise of a hook does in its place, where the ask stands at this place (Library
    /// Reference, `sys.settrace`).
    pub fn instead(&self, asked: Origin) -> Instead
        ensures { result ≡ instead_of self.now asked }
    {
        match self {
            Pending::Starting | Pending::Ending { end: End::Gave(_) } => Instead::Unwinds,
            Pending::Ending {
                end: End::LeftBy(_),
            } => Instead::Closes,
            Pending::Going { from } => Instead::Lands { from: *from },
            Pending::Doing { .. } | Pending::GivingOn { .. } | Pending::GoingOn { .. } => {
                Instead::Lands { from: asked }
            }
        }
    }
}
