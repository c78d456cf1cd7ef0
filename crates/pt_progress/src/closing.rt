//! A block ends, and its result goes to the activation that waits for it.
ghost use Rattle.std.specs.Prelude.{◌≡◌, ◌≢◌, IfOk};
ghost use Rattle.pt_transfers.specs.pt_machine_state.Applies.{Closes};
ghost use Rattle.pt_transfers.specs.pt_machine_state.declared.machine.Standing.TheVariants as standing;

use crate::failing::leave;
use crate::taking::take;
use pt_base::Memory;
use pt_heap::Value;
use pt_transfers::{
    Blocks, Machine, MachineEnd, Standing, Stride, Writes, block_of, resume, tell, visible_line,
};

/// The block returned: the call of the activation that waits has the value, or the module is done.
#[tactic(auto, using(pt_machine_state::proofs::CloseLemmas::module_returns, crate::proofs::CallerLemmas::returns_on, crate::proofs::CallerLemmas::no_call))]
fn close_by_return(
    machine: &mut Machine,
    writes: &mut Writes,
    blocks: &Blocks,
    value: Value,
) -> Result<Stride, Memory>
    requires { machine.old.standing ≡ standing.Returns value }
    ensures { IfOk result
        (λ r. Closes blocks.now r machine.old writes.old machine.new writes.new) }
{
    let block = block_of(machine, blocks);
    tell(machine, block, "return", "", writes)?;
    let Some((closed, why)) = resume(machine) else {
        return Ok(Stride::Ends(MachineEnd::Done));
    };
    let caller = block_of(machine, blocks);
    match caller.places.at(machine.here.pc) {
        Some(place) => take(
            machine, writes, blocks, caller, place.next, &closed, why, value,
        ),
        None => Ok(Stride::Lacks),
    }
}

/// An exception left the block: it goes to the activation that waits, or the module is left.
#[tactic(auto, using(pt_machine_state::proofs::CloseLemmas::module_raises, crate::proofs::CallerLemmas::raises_on, crate::proofs::CallerLemmas::no_call))]
fn close_by_raise(
    machine: &mut Machine,
    writes: &mut Writes,
    blocks: &Blocks,
    exception: Value,
) -> Result<Stride, Memory>
    requires { machine.old.standing ≡ standing.Raises exception }
    ensures { IfOk result
        (λ r. Closes blocks.now r machine.old writes.old machine.new writes.new) }
{
    let block = block_of(machine, blocks);
    tell(machine, block, "return", "", writes)?;
    let line = visible_line(machine, blocks);
    let Some((_, why)) = resume(machine) else {
        return Ok(Stride::Ends(MachineEnd::Left { exception, line }));
    };
    let caller = block_of(machine, blocks);
    match caller.places.at(machine.here.pc) {
        Some(_) => {
            leave(machine, writes, caller, &why, exception)?;
            Ok(Stride::Goes)
        }
        None => Ok(Stride::Lacks),
    }
}

/// Closes the newest activation, whose block has ended, and goes on in the one that waits for it.
/// Where the place of that one has no instruction, as none that waits for a call, it answers that the
/// machine lacks what it needs.
///
/// # Errors
///
/// `Memory` for want of it.
pub fn close(machine: &mut Machine, writes: &mut Writes, blocks: &Blocks) -> Result<Stride, Memory>
    requires { machine.old.standing ≢ standing.AtPlace }
    ensures { IfOk result
        (λ r. Closes blocks.now r machine.old writes.old machine.new writes.new) }
{
    match machine.standing {
        Standing::AtPlace => unreachable!(),
        Standing::Returns(value) => close_by_return(machine, writes, blocks, value),
        Standing::Raises(exception) => close_by_raise(machine, writes, blocks, exception),
    }
}
