//! A result is given to the ask that waited for it.
ghost use Rattle.std.specs.Prelude.{◌≡◌, IfOk};
ghost use Rattle.pt_calling.specs.pt_machine_state.declared.machine.Standing.TheVariants as code;
ghost use Rattle.pt_calling.specs.pt_arising.Arising.{arisen};
ghost use Rattle.pt_calling.specs.pt_arising.pt_opening.pt_host.Calls.{opposite};
ghost use Rattle.pt_giving.specs.Giving.{arises_there, given_to, goes, received, value_behind};

use pt_base::{Memory, Pc};
use pt_calling::{BlockCode, Called, Decided, Given, Machine, Standing, arise, give_back, reply};
use pt_frames::Purpose as For;
use pt_heap::Value;
use pt_pendings::{End, Origin};

/// What comes of a result.
#[derive(Clone, Copy)]
pub enum Received {
    /// The activation goes on; whether an event is told, at which hooks are to be asked.
    Goes { event: bool },
    /// Something else is to be done.
    Further,
}

/// The opposite of a truth value.
fn opposite(value: Value) -> Value
    ensures { result ≡ opposite value }
{
    match value {
        Value::Bool(truth) => Value::Bool(!truth),
        _ => value,
    }
}

/// The value that is given where a block that was called for this gave this one, if nothing has to be
/// done on the heap first: that value, an instance whose `__init__` ran, or the opposite of an answer.
fn value_behind(why: &For, value: Value) -> Option<Value>
    ensures { result ≡ value_behind why.now value }
{
    match why {
        For::Result | For::Resume { .. } | For::Answer { .. } => Some(value),
        For::Init { made } => Some(*made),
        For::Opposite => Some(opposite(value)),
        _ => None,
    }
}

/// Whether an exception that leaves a block arises with the slots as they are: it may be the end of an
/// iterator, and the slots of an exit come off.
fn arises_there(why: &For) -> bool
    ensures { result ≡ arises_there why.now }
{
    match why {
        For::Item { .. } | For::Exit { .. } => false,
        _ => true,
    }
}

/// The newest activation, of this block, goes on behind its ask with a value, which is told. Where it
/// has more than 2^32 - 1 slots it answers Memory.
///
/// # Errors
///
/// `Memory` for want of it.
pub fn give(
    machine: &mut Machine,
    block: &BlockCode,
    next: Pc,
    value: Value,
    called: Option<Called>,
    is_act: bool,
) -> Result<bool, Memory>
    ensures { IfOk result (λ event. record { event = event; machine = machine.new }
        ≡ given_to block.now next value called is_act machine.old) }
{
    let Ok(below) = u32::try_from(machine.code.here.slots.len()) else {
        return Err(Memory);
    };
    let from = Origin {
        pc: machine.code.here.pc,
        below,
    };
    let active = machine.code.here.slots.active();
    let given = Given {
        called,
        stops: None,
        decided: Decided::Nothing,
    };
    give_back(&mut machine.code, next, value)?;
    reply(
        machine,
        block,
        given,
        is_act,
        Standing::AtPlace,
        active,
        from,
    )
}

/// Gives the result of a block to the ask that waited for it in the newest activation, of this block,
/// behind which this place stands, where it was called for its value, an instance or the opposite of
/// its answer, or its exception arises. What was called is this, if it was a call.
///
/// # Errors
///
/// `Memory` for want of it.
pub fn give_result(
    machine: &mut Machine,
    block: &BlockCode,
    next: Pc,
    end: End,
    why: &For,
    called: Option<Called>,
    is_act: bool,
) -> Result<Received, Memory>
    requires { machine.old.code.standing ≡ code.AtPlace }
    ensures { IfOk result (λ r. record { received = r; machine = machine.new }
        ≡ received block.now next end why.now called is_act machine.old) }
{
    match end {
        End::Gave(value) => {
            let Some(value) = value_behind(why, value) else {
                return Ok(Received::Further);
            };
            let event = give(machine, block, next, value, called, is_act)?;
            Ok(Received::Goes { event })
        }
        End::LeftBy(exception) => {
            if !arises_there(why) {
                return Ok(Received::Further);
            }
            let active = machine.code.here.slots.active();
            let event = arise(machine, block, exception, called, is_act, active)?;
            Ok(Received::Goes { event })
        }
    }
}
