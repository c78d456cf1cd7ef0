//! A reply with a value is there.
ghost use Rattle.std.specs.Prelude.{◌≡◌, ◌++◌, IfOk, OnOk};
ghost use Rattle.pt_replying.specs.Replying.{call_told, decided_told, replied, reply_told, stop_told, told_on};

use pt_base::{ActNo, Memory, Seq};
use pt_happenings::Happening;
use pt_heap::Value;
use pt_pendings::{Origin, Pending};
use pt_returning::{BlockCode, Called, Machine, Standing, Waiting, go_on, tell};
use std::alloc::Global;

/// What control tells of a reply with a value.
#[derive(Clone, Copy)]
pub enum Decided {
    Nothing,
    /// A decision was taken, behind which this act comes next.
    Branches { destination: ActNo },
    /// A handler takes this exception.
    Handles { exception: Value },
}

/// What is told of a reply with a value: of what was called, of the exception that ended an iterator,
/// if one did, and of what was decided.
#[derive(Clone, Copy)]
pub struct Given {
    pub called: Option<Called>,
    pub stops: Option<Value>,
    pub decided: Decided,
}

/// Tells all of this, and where no event is told what waits goes on by the next turn. It answers
/// whether an event is, at which hooks are to be asked.
///
/// # Errors
///
/// `Memory` for want of it.
pub fn tell_on(
    machine: &mut Machine,
    block: &BlockCode,
    happenings: Seq<Happening>,
    waiting: Waiting,
) -> Result<bool, Memory>
    ensures { IfOk result (λ event. record { event = event; machine = machine.new }
        ≡ told_on block.now waiting happenings machine.old) }
{
    let standing = waiting.standing;
    if tell(machine, block, happenings, waiting)? {
        return Ok(true);
    }
    go_on(machine, standing);
    Ok(false)
}

/// Puts what is told of a call of a builtin behind these.
fn push_call(told: &mut Seq<Happening>, called: Option<Called>) -> Result<(), Memory>
    ensures { OnOk result (told.new ≡ told.old ++ call_told called) }
{
    match called {
        Some(called) if called.told.builtin => told.push(Happening::ReturnsFrom {
            callee: called.function,
            first: called.told.first,
        }),
        _ => Ok(()),
    }
}

/// The same of the exception that ended an iterator.
fn push_stop(told: &mut Seq<Happening>, stops: Option<Value>) -> Result<(), Memory>
    ensures { OnOk result (told.new ≡ told.old ++ stop_told stops) }
{
    match stops {
        Some(exception) => told.push(Happening::Stops(exception)),
        None => Ok(()),
    }
}

/// The same of what was decided.
fn push_decided(told: &mut Seq<Happening>, decided: Decided) -> Result<(), Memory>
    ensures { OnOk result (told.new ≡ told.old ++ decided_told decided) }
{
    match decided {
        Decided::Nothing => Ok(()),
        Decided::Branches { destination } => told.push(Happening::Branches { destination }),
        Decided::Handles { exception } => told.push(Happening::Handled(exception)),
    }
}

/// What is told of a reply: of an act's alone.
fn told_of(alloc: Global, given: Given, is_act: bool) -> Result<Seq<Happening>, Memory>
    ensures { IfOk result (λ told. told ≡ reply_told given is_act) }
{
    let mut told = Seq::new(alloc);
    if is_act {
        push_call(&mut told, given.called)?;
        push_stop(&mut told, given.stops)?;
        push_decided(&mut told, given.decided)?;
    }
    Ok(told)
}

/// A reply with a value is there, which leads to where the newest activation stands, of this block:
/// that is told, and it goes on. A raise in place of what goes on comes from this origin, and this
/// exception was active in the activation as it asked. It answers whether an event is told, at which
/// hooks are to be asked.
///
/// # Errors
///
/// `Memory` for want of it.
pub fn reply(
    machine: &mut Machine,
    block: &BlockCode,
    given: Given,
    is_act: bool,
    standing: Standing,
    active: Option<Value>,
    from: Origin,
) -> Result<bool, Memory>
    ensures { IfOk result (λ event. record { event = event; machine = machine.new }
        ≡ replied block.now given is_act standing active from machine.old) }
{
    let told = told_of(machine.code.alloc, given, is_act)?;
    let waiting = Waiting {
        standing,
        active,
        pending: Pending::Going { from },
    };
    tell_on(machine, block, told, waiting)
}
