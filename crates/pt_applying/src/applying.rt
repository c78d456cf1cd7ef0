//! What an instruction came to is done.
ghost use Rattle.std.specs.Prelude.{◌≡◌, IfOk, OnOk};
ghost use Rattle.law_doing.specs.pt_machine_state.Writing.{Adds};
ghost use Rattle.law_doing.specs.pt_machine_state.declared.machine.Standing.TheVariants as code;
ghost use Rattle.law_doing.specs.pt_answering.Answering.{answer_writes};
ghost use Rattle.pt_applying.specs.Applying.{AppliesSo, DoesSo, failing_of, of_failed};

use law_doing::{
    Answered, Asked, BlockCode, Blocks, Failed, Failing, Machine, Progress, Writes, answer, call,
    fail, raise_again,
};
use pt_base::{Memory, Pc, What};

/// What comes of what an instruction came to.
#[derive(Clone, Copy)]
pub enum Applied {
    /// The newest activation goes on, which may be one that opened; whether an event is told, at which
    /// hooks are to be asked.
    Goes { event: bool },
    /// The run leaves the profile of the language.
    Leaves(What),
    /// The slots lack what the instruction needs, or one activation too many was to give the next item of
    /// an iterator.
    Lacks,
}

/// What comes of a failure: all that it leaves is that something lacks.
fn of_failed(failed: Failed) -> Applied
    ensures { result ≡ of_failed failed }
{
    match failed {
        Failed::Goes { event } => Applied::Goes { event },
        Failed::Leaves(what) => Applied::Leaves(what),
        Failed::Further(_) => Applied::Lacks,
    }
}

/// What an exception in the place of the reply takes.
fn failing_of(asked: Asked) -> Failing
    ensures { result ≡ failing_of asked }
{
    Failing {
        called: asked.called,
        is_act: asked.is_act,
        active: asked.active,
    }
}

/// Does what an instruction came to that is no reply with a value.
fn go_further(
    machine: &mut Machine,
    blocks: &Blocks,
    block: &BlockCode,
    progress: Progress,
    failing: Failing,
) -> Result<Failed, Memory>
    requires { machine.old.code.standing ≡ code.AtPlace }
    ensures { IfOk result (λ r. DoesSo blocks.now block.now progress failing machine.old r
        machine.new) }
{
    match progress {
        Progress::Calls {
            block: called,
            hidden,
            locals,
            why,
        } => call(machine, blocks, block, called, hidden, locals, why, failing),
        Progress::RaisesAgain => raise_again(machine, block, failing.is_act, failing.active),
        failure => fail(machine, block, failure, failing),
    }
}

/// Does what the instruction came to that the newest activation has asked of its host, of this block,
/// behind which this place stands, with the slots and stores as its row leaves them.
///
/// # Errors
///
/// `Memory` for want of it.
#[tactic(auto, using(crate::proofs::Behind::by_answer, crate::proofs::Behind::by_failure, crate::proofs::Behind::stays_at_place))]
pub fn apply(
    machine: &mut Machine,
    writes: &mut Writes,
    blocks: &Blocks,
    block: &BlockCode,
    next: Pc,
    progress: Progress,
    asked: Asked,
) -> Result<Applied, Memory>
    requires { machine.old.code.standing ≡ code.AtPlace }
    ensures machine { IfOk result (λ r. AppliesSo blocks.now block.now next progress asked
        machine.old r machine.new) }
    ensures writes { OnOk result (Adds writes.old writes.new (answer_writes progress)) }
{
    match answer(machine, writes, block, next, progress, asked)? {
        Answered::Goes { event } => Ok(Applied::Goes { event }),
        Answered::Further(progress) => {
            let failed = go_further(machine, blocks, block, progress, failing_of(asked))?;
            Ok(of_failed(failed))
        }
    }
}
