//! The body of a class has ended.
ghost use Rattle.std.specs.Prelude.{◌≡◌, None, codes, IfOk};
ghost use Rattle.pt_giving.specs.pt_turning.pt_telling.pt_transfers.pt_machine_state.declared.machine.Standing.TheVariants as code;
ghost use Rattle.pt_giving.specs.pt_host.Errors.{error_saying};
ghost use Rattle.pt_giving.specs.pt_host.World.{allot};
ghost use Rattle.pt_giving.specs.pt_host.declared.places.TheConstants.{TYPE_ERROR};
ghost use Rattle.pt_giving.specs.pt_failing.Failing.{FailsOf, failed_by};
ghost use Rattle.pt_making.specs.Making.{MakesOf, MakesSo, class_of_body, failing_here, filled, made_by};

use pt_base::{Dup, Memory, ObjId, Pc, Text, What};
use pt_frames::Activation;
use pt_giving::{
    Base, BlockCode, Called, Failed, Failing, Machine, TYPE_ERROR, allot, arise, base_of,
    class_object, error_saying, give,
};
use pt_heap::{Object, Value};

/// The class of a cell stands in it.
fn fill(machine: &mut Machine, cell: Option<u32>, class: Value)
    ensures { machine.new ≡ filled cell class machine.old }
{
    let Some(cell) = cell else {
        return;
    };
    let at = cell as usize;
    if at < machine.code.frames.cells.len() {
        machine.code.frames.cells.set(at, Some(class));
    }
}

/// A class on a base, of the names of its body, whose block is this.
fn class_of_body(
    machine: &Machine,
    closed: &Activation,
    body: &BlockCode,
    base: ObjId,
) -> Result<Object, Memory>
    ensures { IfOk result (λ object. object ≡ class_of_body closed.now body.now base) }
{
    let alloc = machine.code.alloc;
    let name = body.name.dup(alloc)?;
    let bound = closed.names.bindings(alloc)?;
    class_object(alloc, &machine.code.heap, name, base, bound.as_slice())
}

/// A class that was made is given, if there was room for it, and stands in its cell.
fn give_made(
    machine: &mut Machine,
    block: &BlockCode,
    next: Pc,
    class: Option<Value>,
    cell: Option<u32>,
    called: Option<Called>,
    is_act: bool,
) -> Result<Failed, Memory>
    ensures { IfOk result (λ r. record { failed = r; machine = machine.new }
        ≡ made_by block.now next class cell called is_act machine.old) }
{
    let Some(class) = class else {
        return Ok(Failed::Leaves(What::Heap));
    };
    fill(machine, cell, class);
    let event = give(machine, block, next, class, called, is_act)?;
    Ok(Failed::Goes { event })
}

/// A class on a base is made.
fn make_on(
    machine: &mut Machine,
    block: &BlockCode,
    next: Pc,
    closed: &Activation,
    body: &BlockCode,
    base: ObjId,
    cell: Option<u32>,
    called: Option<Called>,
    is_act: bool,
) -> Result<Failed, Memory>
    ensures { IfOk result (λ r. MakesOf (allot (class_of_body closed.now body.now base)
        machine.old.code.heap) block.now next cell called is_act machine.old r machine.new) }
{
    let object = class_of_body(machine, closed, body, base)?;
    let class = allot(&mut machine.code.heap, object)?;
    give_made(machine, block, next, class, cell, called, is_act)
}

/// An exception arises that was made, if there was room for it.
fn raise_made(
    machine: &mut Machine,
    block: &BlockCode,
    exception: Option<Value>,
    failing: Failing,
) -> Result<Failed, Memory>
    requires { machine.old.code.standing ≡ code.AtPlace }
    ensures { IfOk result (λ r. record { failed = r; machine = machine.new }
        ≡ failed_by block.now exception failing machine.old) }
{
    let Some(exception) = exception else {
        return Ok(Failed::Leaves(What::Heap));
    };
    let event = arise(
        machine,
        block,
        exception,
        failing.called,
        failing.is_act,
        failing.active,
    )?;
    Ok(Failed::Goes { event })
}

/// A TypeError arises with a text, in this context.
fn raise_saying(
    machine: &mut Machine,
    block: &BlockCode,
    text: Text,
    context: Option<Value>,
    failing: Failing,
) -> Result<Failed, Memory>
    requires { machine.old.code.standing ≡ code.AtPlace }
    ensures { IfOk result (λ r. FailsOf (error_saying TYPE_ERROR text None context
        machine.old.code.heap) block.now failing machine.old r machine.new) }
{
    let alloc = machine.code.alloc;
    let made = error_saying(
        alloc,
        &mut machine.code.heap,
        TYPE_ERROR,
        text,
        None,
        context,
    )?;
    raise_made(machine, block, made, failing)
}

/// There is no base: a TypeError arises in this context.
fn refuse_base(
    machine: &mut Machine,
    block: &BlockCode,
    called: Option<Called>,
    is_act: bool,
    context: Option<Value>,
) -> Result<Failed, Memory>
    requires { machine.old.code.standing ≡ code.AtPlace }
    ensures { IfOk result (λ r. FailsOf (error_saying TYPE_ERROR (codes "bad argument") None context
        machine.old.code.heap) block.now (failing_here called is_act machine.old) machine.old r
        machine.new) }
{
    let failing = Failing {
        called,
        is_act,
        active: machine.code.here.slots.active(),
    };
    let text = Text::from_str(machine.code.alloc, "bad argument")?;
    let failed = raise_saying(machine, block, text, context, failing)?;
    Ok(failed)
}

/// Makes a class on a base of the names of its body, whose activation has closed, and gives it to the
/// ask that waited for it in the newest activation, of this block, behind which this place stands. It
/// stands in its cell then, if it has one. Where an exception arises this is its context.
///
/// # Errors
///
/// `Memory` for want of it.
#[tactic(auto, using(crate::proofs::Bases::where_on, crate::proofs::Bases::where_unavailable, crate::proofs::Bases::where_none))]
pub fn make_class(
    machine: &mut Machine,
    block: &BlockCode,
    next: Pc,
    closed: &Activation,
    body: &BlockCode,
    base: Value,
    cell: Option<u32>,
    called: Option<Called>,
    is_act: bool,
    context: Option<Value>,
) -> Result<Failed, Memory>
    requires { machine.old.code.standing ≡ code.AtPlace }
    ensures { IfOk result (λ r. MakesSo block.now next closed.now body.now base cell called is_act
        context machine.old r machine.new) }
{
    match base_of(&machine.code.heap, base) {
        Base::On(base) => {
            let failed = make_on(
                machine, block, next, closed, body, base, cell, called, is_act,
            )?;
            Ok(failed)
        }
        Base::Unavailable => Ok(Failed::Leaves(What::Feature)),
        Base::NoBase => {
            let failed = refuse_base(machine, block, called, is_act, context)?;
            Ok(failed)
        }
    }
}
