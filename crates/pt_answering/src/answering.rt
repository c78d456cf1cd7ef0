//! An instruction has its answer.
ghost use Rattle.std.specs.Prelude.{◌≡◌, IfOk, OnOk};
ghost use Rattle.pt_arising.specs.pt_replying.pt_turning.pt_telling.pt_transfers.pt_machine_state.Changes.{left_place};
ghost use Rattle.pt_arising.specs.pt_replying.pt_turning.pt_telling.pt_transfers.pt_machine_state.Writing.{Adds};
ghost use Rattle.pt_arising.specs.pt_replying.pt_turning.pt_telling.pt_transfers.pt_machine_state.declared.machine.Standing.TheVariants as code;
ghost use Rattle.pt_arising.specs.pt_replying.pt_turning.Turning.{standing_of};
ghost use Rattle.pt_answering.specs.Answering.{answer_writes, answered, behind, goes, left_in, replied_there};

use pt_arising::{
    BlockCode, Called, CodeStanding, Decided, Given, Machine, Progress, Standing, Writes,
    leave_place, print, reply,
};
use pt_base::{Memory, Pc};
use pt_heap::{Completion, Value};
use pt_pendings::Origin;

/// What is known of an ask as it is answered: what was called; what control tells of a value; whether
/// it is an act; which exception was active in its activation; and from where a raise in place of a
/// value comes.
#[derive(Clone, Copy)]
pub struct Asked {
    pub called: Option<Called>,
    pub decided: Decided,
    pub is_act: bool,
    pub active: Option<Value>,
    pub from: Origin,
}

/// What comes of an answer.
#[derive(Drop)]
pub enum Answered {
    /// The activation goes on; whether an event is told, at which hooks are to be asked.
    Goes { event: bool },
    /// This is left to be done.
    Further(Progress),
}

/// Where code stands that a completion has left.
fn standing_of(standing: CodeStanding) -> Standing
    ensures { result ≡ standing_of standing }
{
    match standing {
        CodeStanding::AtPlace => Standing::AtPlace,
        CodeStanding::Returns(value) => Standing::Returns(value),
        CodeStanding::Raises(exception) => Standing::Raises(exception),
    }
}

/// A completion leaves the place of the newest activation, behind which this place stands; it answers
/// where that stands then.
#[tactic(auto, using(crate::proofs::OnlyPlace::only_place_and_slots))]
fn leave(
    machine: &mut Machine,
    block: &BlockCode,
    next: Pc,
    how: Completion,
) -> Result<Standing, Memory>
    requires { machine.old.code.standing ≡ code.AtPlace }
    ensures machine { OnOk result (machine.new ≡ left_in block.now next how machine.old) }
    ensures standing { IfOk result (λ s.
        s ≡ standing_of (left_place block.now next how machine.old.code).standing) }
{
    leave_place(&mut machine.code, block, next, how)?;
    let standing = standing_of(machine.code.standing);
    machine.code.standing = CodeStanding::AtPlace;
    Ok(standing)
}

/// A reply leads to where the newest activation stands.
fn reply_there(
    machine: &mut Machine,
    block: &BlockCode,
    asked: Asked,
    standing: Standing,
) -> Result<Answered, Memory>
    ensures { IfOk result (λ r. record { answer = r; machine = machine.new }
        ≡ goes (replied_there block.now asked standing machine.old)) }
{
    let given = Given {
        called: asked.called,
        stops: None,
        decided: asked.decided,
    };
    let event = reply(
        machine,
        block,
        given,
        asked.is_act,
        standing,
        asked.active,
        asked.from,
    )?;
    Ok(Answered::Goes { event })
}

/// A reply leads behind the place of the newest activation, or to another one.
fn reply_behind(
    machine: &mut Machine,
    block: &BlockCode,
    asked: Asked,
    pc: Pc,
) -> Result<Answered, Memory>
    ensures { IfOk result (λ r. record { answer = r; machine = machine.new }
        ≡ goes (behind block.now asked pc machine.old)) }
{
    machine.code.here.pc = pc;
    reply_there(machine, block, asked, Standing::AtPlace)
}

/// Does what the instruction came to that the newest activation has asked of its host, of this block,
/// behind which this place stands, with the slots and stores as its row leaves them. Calls, exceptions
/// and what leaves the profile are left.
///
/// # Errors
///
/// `Memory` for want of it.
pub fn answer(
    machine: &mut Machine,
    writes: &mut Writes,
    block: &BlockCode,
    next: Pc,
    progress: Progress,
    asked: Asked,
) -> Result<Answered, Memory>
    requires { machine.old.code.standing ≡ code.AtPlace }
    ensures machine { IfOk result (λ r. record { answer = r; machine = machine.new }
        ≡ answered block.now next progress asked machine.old) }
    ensures writes { OnOk result (Adds writes.old writes.new (answer_writes progress)) }
{
    match progress {
        Progress::Next => reply_behind(machine, block, asked, next),
        Progress::Goto { pc } => reply_behind(machine, block, asked, pc),
        Progress::Leaves { how } => {
            let standing = leave(machine, block, next, how)?;
            reply_there(machine, block, asked, standing)
        }
        Progress::Reraises { exception } => {
            reply_there(machine, block, asked, Standing::Reraises(exception))
        }
        Progress::Print { text } => {
            print(writes, text)?;
            reply_behind(machine, block, asked, next)
        }
        further => Ok(Answered::Further(further)),
    }
}
