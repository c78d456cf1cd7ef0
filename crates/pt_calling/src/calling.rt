//! A block is called.
ghost use Rattle.std.specs.Prelude.{◌≡◌, ◌<◌, suc, length, drop, IfOk};
ghost use Rattle.sem_run.specs.run.State.{most_activations};
ghost use Rattle.pt_reraising.specs.pt_machine_state.declared.machine.Standing.TheVariants as code;
ghost use Rattle.pt_reraising.specs.pt_failing.Failing.{FailsSo};
ghost use Rattle.pt_calling.specs.Calling.{CallsSo, RefusesSo, called_in, cleared, is_item, too_many, wanted_for};

use pt_base::{BlockId, Memory, Seq, Text};
use pt_bind::Locals;
use pt_frames::{Purpose as For, Slots};
use pt_happenings::Happening;
use pt_pendings::Pending;
use pt_reraising::{
    BlockCode, Blocks, Failed, Failing, Machine, Progress, Purpose, RECURSION_ERROR, Standing,
    Waiting, Wanted, context_of, fail, open, tell_on,
};
use std::alloc::Global;

/// The newest activation is to wait for a block's that is called for this.
fn wanted_for(machine: &Machine, why: For, failing: Failing) -> Wanted
    ensures { result ≡ wanted_for why failing machine.now }
{
    Wanted {
        purpose: Purpose::Ask {
            called: failing.called,
            is_act: failing.is_act,
        },
        why,
        context: context_of(machine, failing.active),
    }
}

/// A block opens above the newest activation, which waits for its result, and that is told; it
/// answers whether an event is.
fn call_above(
    machine: &mut Machine,
    callee: &BlockCode,
    called: BlockId,
    hidden: bool,
    locals: Locals,
    why: For,
    failing: Failing,
) -> Result<bool, Memory>
    requires { suc (length machine.old.openers) < most_activations }
    ensures { IfOk result (λ event. record { event = event; machine = machine.new }
        ≡ called_in callee.now called hidden locals why failing machine.old) }
{
    let wanted = wanted_for(machine, why, failing);
    open(machine, callee.iterates, called, hidden, locals, wanted)?;
    let told = Seq::from_slice(machine.code.alloc, &[Happening::Starts])?;
    let waiting = Waiting {
        standing: Standing::AtPlace,
        active: None,
        pending: Pending::Starting,
    };
    tell_on(machine, callee, told, waiting)
}

/// What a call comes to where as many activations are open as may be.
fn too_many(alloc: Global) -> Result<Progress, Memory>
    ensures { IfOk result (λ p. p ≡ too_many) }
{
    let text = Text::from_str(alloc, "too many activations")?;
    Ok(Progress::FailsSaying {
        class: RECURSION_ERROR,
        text,
    })
}

/// Whether a block is to give the next item of an iterator.
fn is_item(why: &For) -> bool
    ensures { result ≡ is_item why.now }
{
    match why {
        For::Item {
            iterator: _,
            end: _,
        } => true,
        _ => false,
    }
}

/// The two slots on top come off.
fn drop_two(slots: &mut Slots)
    ensures { slots.new ≡ drop 2 slots.old }
{
    match slots.pop() {
        Some(_) => {
            slots.pop();
        }
        None => {}
    }
}

/// The slots of an exit come off, which were to stay on while its block runs.
fn clear(machine: &mut Machine, why: &For)
    ensures { machine.new ≡ cleared why.now machine.old }
{
    match why {
        For::Exit { completion: _ } => drop_two(&mut machine.code.here.slots),
        _ => {}
    }
}

/// A RecursionError arises.
#[tactic(auto, using(crate::proofs::Rooms::said_so))]
fn fail_below(
    machine: &mut Machine,
    block: &BlockCode,
    why: &For,
    failing: Failing,
) -> Result<Failed, Memory>
    requires { machine.old.code.standing ≡ code.AtPlace }
    ensures { IfOk result (λ r. FailsSo block.now too_many failing (cleared why.now machine.old) r
        machine.new) }
{
    let failure = too_many(machine.code.alloc)?;
    clear(machine, why);
    let failed = fail(machine, block, failure, failing)?;
    Ok(failed)
}

/// As many activations are open as may be: a RecursionError arises, but nothing is done where the next
/// item of an iterator is asked for.
#[tactic(auto, using(crate::proofs::Rooms::where_item, crate::proofs::Rooms::where_other))]
fn refuse(
    machine: &mut Machine,
    block: &BlockCode,
    why: &For,
    failing: Failing,
) -> Result<Failed, Memory>
    requires { machine.old.code.standing ≡ code.AtPlace }
    ensures { IfOk result (λ r. RefusesSo block.now why.now failing machine.old r machine.new) }
{
    if is_item(why) {
        let failure = too_many(machine.code.alloc)?;
        return Ok(Failed::Further(failure));
    }
    let failed = fail_below(machine, block, why, failing)?;
    Ok(failed)
}

/// Does what the instruction came to that the newest activation has asked of its host, of this block,
/// if it calls a block, with the slots and stores as its row leaves them: that opens, and its
/// result is for this. Where as many activations are open as may be, a RecursionError arises; what
/// comes of that where the next item of an iterator is asked for is left to be done.
///
/// # Errors
///
/// `Memory` for want of it.
#[tactic(auto, using(crate::proofs::Rooms::where_full))]
pub fn call(
    machine: &mut Machine,
    blocks: &Blocks,
    block: &BlockCode,
    called: BlockId,
    hidden: bool,
    locals: Locals,
    why: For,
    failing: Failing,
) -> Result<Failed, Memory>
    requires { machine.old.code.standing ≡ code.AtPlace }
    ensures { IfOk result (λ r. CallsSo blocks.now block.now called hidden locals why failing
        machine.old r machine.new) }
{
    if machine.openers.is_full() {
        let failed = refuse(machine, block, &why, failing)?;
        return Ok(failed);
    }
    let callee = blocks.at(called, hidden);
    let event = call_above(machine, callee, called, hidden, locals, why, failing)?;
    Ok(Failed::Goes { event })
}
