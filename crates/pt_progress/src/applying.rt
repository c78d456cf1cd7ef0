//! What instructions come to is done.
ghost use Rattle.std.specs.Prelude.{◌≡◌, IfOk};
ghost use Rattle.pt_base.specs.declared.numbers.Pc.{Pc};
ghost use Rattle.pt_transfers.specs.pt_machine_state.Applies.{Applied};
ghost use Rattle.sem_rows.specs.declared.heap_rows.progress.Progress.TheVariants as progress;

use crate::failing::{leave_saying, outside, raise_saying, raise_there, raise_with};
use pt_base::{BlockId, Memory, Pc, Text};
use pt_bind::Locals;
use pt_frames::Purpose;
use pt_heap::Completion;
use pt_transfers::{
    BlockCode, Blocks, Machine, Stride, Writes, active, go_to, land, leave_place, open, print,
    raise, tell,
};
use sem_rows::heap_rows::Progress;
use sem_rows::{RECURSION_ERROR, RUNTIME_ERROR};

/// The most activations that may be open.
const MOST_ACTIVATIONS: usize = 1_000;

/// A block opens above the newest activation, which waits at its call (Language Reference 4.1,
/// 6.3.4). In place of one too many a RecursionError leaves the block.
#[tactic(auto, using(pt_machine_state::proofs::CallLemmas::applied_calls, crate::proofs::ArisenLemmas::too_deep_arisen))]
fn call(
    machine: &mut Machine,
    writes: &mut Writes,
    blocks: &Blocks,
    block: &BlockCode,
    called: BlockId,
    hidden: bool,
    locals: Locals,
    why: Purpose,
) -> Result<Stride, Memory>
    ensures { IfOk result (λ r. (next : Pc) → Applied blocks.now block.now next
        (progress.Calls called hidden locals why) r machine.old writes.old machine.new writes.new) }
{
    if machine.frames.depth() + 1 >= MOST_ACTIVATIONS {
        let text = Text::from_str(machine.alloc, "too many activations")?;
        return leave_saying(machine, writes, blocks, block, &why, RECURSION_ERROR, text);
    }
    let callee = blocks.at(called, hidden);
    open(machine, callee.iterates, called, hidden, locals, why)?;
    tell(machine, callee, "call", "", writes)?;
    Ok(Stride::Goes)
}

/// The exception that is active arises once more (Language Reference 7.8). In place of one where
/// none is a RuntimeError arises.
#[tactic(auto, using(pt_machine_state::proofs::FailLemmas::applied_raises_again, crate::proofs::ArisenLemmas::none_arisen))]
fn raise_active(
    machine: &mut Machine,
    writes: &mut Writes,
    blocks: &Blocks,
    block: &BlockCode,
) -> Result<Stride, Memory>
    ensures { IfOk result (λ r. (next : Pc) → Applied blocks.now block.now next
        progress.RaisesAgain r machine.old writes.old machine.new writes.new) }
{
    let Some(exception) = active(machine) else {
        let text = Text::from_str(machine.alloc, "no active exception")?;
        return raise_saying(machine, writes, blocks, block, RUNTIME_ERROR, text);
    };
    raise(machine, block, exception, writes)?;
    Ok(Stride::Goes)
}

/// Does what an instruction of a block comes to, behind which this place stands.
///
/// # Errors
///
/// `Memory` for want of it.
#[tactic(auto, using(pt_machine_state::proofs::ApplyLemmas::applied_next, pt_machine_state::proofs::ApplyLemmas::applied_goto, pt_machine_state::proofs::ApplyLemmas::applied_leaves, pt_machine_state::proofs::ApplyLemmas::applied_reraises, pt_machine_state::proofs::ApplyLemmas::applied_print, pt_machine_state::proofs::ApplyLemmas::applied_lacks, pt_machine_state::proofs::FailLemmas::applied_outside, pt_machine_state::proofs::FailLemmas::applied_raises, crate::proofs::ArisenLemmas::fails_arisen, crate::proofs::ArisenLemmas::saying_arisen))]
pub fn apply(
    machine: &mut Machine,
    writes: &mut Writes,
    blocks: &Blocks,
    block: &BlockCode,
    next: Pc,
    progress: Progress,
) -> Result<Stride, Memory>
    ensures { IfOk result (λ r. Applied blocks.now block.now next progress r machine.old
        writes.old machine.new writes.new) }
{
    match progress {
        Progress::Next => {
            go_to(machine, next);
            Ok(Stride::Goes)
        }
        Progress::Goto { pc } => {
            go_to(machine, pc);
            Ok(Stride::Goes)
        }
        Progress::Leaves { how } => {
            leave_place(machine, block, next, how)?;
            Ok(Stride::Goes)
        }
        Progress::Reraises { exception } => {
            land(machine, block, Completion::Raise(exception))?;
            Ok(Stride::Goes)
        }
        Progress::Print { text } => {
            print(writes, text)?;
            go_to(machine, next);
            Ok(Stride::Goes)
        }
        Progress::Calls {
            block: called,
            hidden,
            locals,
            why,
        } => call(machine, writes, blocks, block, called, hidden, locals, why),
        Progress::Raises { exception } => {
            raise_there(machine, writes, block, exception)?;
            Ok(Stride::Goes)
        }
        Progress::RaisesAgain => raise_active(machine, writes, blocks, block),
        Progress::Fails { class, arg } => raise_with(machine, writes, blocks, block, class, arg),
        Progress::FailsSaying { class, text } => {
            raise_saying(machine, writes, blocks, block, class, text)
        }
        Progress::Outside { what } => Ok(outside(machine, blocks, what)),
        Progress::Lacks => Ok(Stride::Lacks),
    }
}
