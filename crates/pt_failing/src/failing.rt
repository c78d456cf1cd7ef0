//! An instruction fails.
ghost use Rattle.std.specs.Prelude.{◌≡◌, None, IfOk};
ghost use Rattle.pt_answering.specs.pt_arising.Arising.{arisen};
ghost use Rattle.pt_answering.specs.pt_replying.pt_turning.sem_rows.pt_host.Calls.{arguments_of};
ghost use Rattle.pt_answering.specs.pt_replying.pt_turning.sem_rows.pt_host.Errors.{error, error_saying, object_place};
ghost use Rattle.pt_answering.specs.pt_replying.pt_turning.sem_rows.pt_host.World.{allot};
ghost use Rattle.pt_answering.specs.pt_replying.pt_turning.pt_telling.pt_transfers.pt_machine_state.declared.machine.Standing.TheVariants as code;
ghost use Rattle.pt_failing.specs.Failing.{FailsOf, FailsSo, context_of, failed_by, goes, raised_there};

use pt_answering::{
    BlockCode, Called, Machine, Progress, allot, arise, arise_while, error, error_saying,
};
use pt_base::{Memory, ObjId, Seq, Text, What};
use pt_heap::Value;
use std::alloc::Global;

/// What comes of a failure.
#[derive(Drop)]
pub enum Failed {
    /// The activation goes on; whether an event is told, at which hooks are to be asked.
    Goes { event: bool },
    /// The run leaves the profile of the language.
    Leaves(What),
    /// This is left to be done.
    Further(Progress),
}

/// What an exception in the place of a reply takes: what was called, whether that is an act, and which
/// exception was active in the activation as it asked.
#[derive(Clone, Copy)]
pub struct Failing {
    pub called: Option<Called>,
    pub is_act: bool,
    pub active: Option<Value>,
}

/// The exception that is active in the run, where this one is in the newest activation.
pub fn context_of(machine: &Machine, active: Option<Value>) -> Option<Value>
    ensures { result ≡ context_of active machine.now }
{
    match active {
        Some(exception) => Some(exception),
        None => machine.openers.active(),
    }
}

/// The place of the object that a value is, if it is one.
fn object_place(value: Option<Value>) -> Option<ObjId>
    ensures { result ≡ object_place value }
{
    match value {
        Some(Value::Obj(id)) => Some(id),
        _ => None,
    }
}

/// The arguments of an exception with one or none.
fn arguments_of(alloc: Global, arg: Option<Value>) -> Result<Seq<Value>, Memory>
    ensures { IfOk result (λ args. args ≡ arguments_of arg) }
{
    match arg {
        Some(arg) => Seq::from_slice(alloc, &[arg]),
        None => Ok(Seq::new(alloc)),
    }
}

/// An exception arises that is there already.
fn raise_there(
    machine: &mut Machine,
    block: &BlockCode,
    exception: ObjId,
    failing: Failing,
) -> Result<Failed, Memory>
    requires { machine.old.code.standing ≡ code.AtPlace }
    ensures { IfOk result (λ r. record { failed = r; machine = machine.new }
        ≡ goes (raised_there block.now exception failing machine.old)) }
{
    let active = object_place(context_of(machine, failing.active));
    arise_while(&mut machine.code.heap, active, exception);
    let exception = Value::Obj(exception);
    let event = arise(
        machine,
        block,
        exception,
        failing.called,
        failing.is_act,
        failing.active,
    )?;
    Ok(Failed::Goes { event })
}

/// An exception arises that was made, if there was room for it.
fn raise_made(
    machine: &mut Machine,
    block: &BlockCode,
    exception: Option<Value>,
    failing: Failing,
) -> Result<Failed, Memory>
    requires { machine.old.code.standing ≡ code.AtPlace }
    ensures { IfOk result (λ r. record { failed = r; machine = machine.new }
        ≡ failed_by block.now exception failing machine.old) }
{
    let Some(exception) = exception else {
        return Ok(Failed::Leaves(What::Heap));
    };
    let event = arise(
        machine,
        block,
        exception,
        failing.called,
        failing.is_act,
        failing.active,
    )?;
    Ok(Failed::Goes { event })
}

/// An exception of a class arises with its argument.
fn raise_with(
    machine: &mut Machine,
    block: &BlockCode,
    class: ObjId,
    arg: Option<Value>,
    failing: Failing,
) -> Result<Failed, Memory>
    requires { machine.old.code.standing ≡ code.AtPlace }
    ensures { IfOk result (λ r. FailsOf (allot (error class (arguments_of arg) None
        (context_of failing.active machine.old)) machine.old.code.heap)
        block.now failing machine.old r machine.new) }
{
    let args = arguments_of(machine.code.alloc, arg)?;
    let active = context_of(machine, failing.active);
    let exception = error(
        machine.code.alloc,
        &machine.code.heap,
        class,
        args,
        None,
        active,
    );
    let made = allot(&mut machine.code.heap, exception)?;
    raise_made(machine, block, made, failing)
}

/// An exception of a class arises with a text.
fn raise_saying(
    machine: &mut Machine,
    block: &BlockCode,
    class: ObjId,
    text: Text,
    failing: Failing,
) -> Result<Failed, Memory>
    requires { machine.old.code.standing ≡ code.AtPlace }
    ensures { IfOk result (λ r. FailsOf (error_saying class text None
        (context_of failing.active machine.old) machine.old.code.heap)
        block.now failing machine.old r machine.new) }
{
    let active = context_of(machine, failing.active);
    let alloc = machine.code.alloc;
    let made = error_saying(alloc, &mut machine.code.heap, class, text, None, active)?;
    raise_made(machine, block, made, failing)
}

/// Does what the instruction came to that the newest activation has asked of its host, of this block,
/// if it failed, with the slots and stores as its row leaves them.
///
/// # Errors
///
/// `Memory` for want of it.
pub fn fail(
    machine: &mut Machine,
    block: &BlockCode,
    progress: Progress,
    failing: Failing,
) -> Result<Failed, Memory>
    requires { machine.old.code.standing ≡ code.AtPlace }
    ensures { IfOk result
        (λ r. FailsSo block.now progress failing machine.old r machine.new) }
{
    match progress {
        Progress::Raises { exception } => raise_there(machine, block, exception, failing),
        Progress::Fails { class, arg } => raise_with(machine, block, class, arg, failing),
        Progress::FailsSaying { class, text } => {
            raise_saying(machine, block, class, text, failing)
        }
        Progress::Outside { what } => Ok(Failed::Leaves(what)),
        further => Ok(Failed::Further(further)),
    }
}
