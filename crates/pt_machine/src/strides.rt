//! The stride of the machine.
ghost use Rattle.std.specs.Prelude.{◌≡◌, Some, IfOk};
ghost use Rattle.pt_machine.specs.Strides.{Strides};
ghost use Rattle.pt_machine.specs.Performing.{GoesOn};
ghost use Rattle.pt_code_tables.specs.pt_machine_state.Blocks.{block_at};
ghost use Rattle.pt_code_tables.specs.pt_machine_state.Views.{block_of};
ghost use Rattle.pt_code_tables.specs.pt_machine_state.declared.machine.Standing.TheVariants as standing;
ghost use Rattle.pt_places.specs.PlaceTable.{entry};

use crate::instructions::perform;
use pt_base::Memory;
use pt_code_tables::{BlockCode, CodeTables, Machine, MachineEnd, Standing, Stride, Writes};
use pt_instr::Instr;
use pt_places::Place;
use pt_progress::{apply, begin_act, block_of, close, raise_again};

/// Does what stands at a place, and goes on where that leads. A `raise` alone changes nothing.
#[tactic(auto, using(crate::proofs::StepLemmas::done_there, crate::proofs::StepLemmas::raised_there))]
fn go_on(
    tables: &CodeTables,
    machine: &mut Machine,
    writes: &mut Writes,
    block: &BlockCode,
    place: Place,
) -> Result<Stride, Memory>
    ensures { IfOk result (λ r. GoesOn tables.now block.now place r machine.old writes.old
        machine.new writes.new) }
{
    match place.instr {
        Instr::RaiseAgain => {
            let progress = raise_again(machine)?;
            apply(machine, writes, &tables.blocks, block, place.next, progress)
        }
        _ => {
            let progress = perform(tables, machine, place.instr)?;
            apply(machine, writes, &tables.blocks, block, place.next, progress)
        }
    }
}

/// Does what stands at the place of the newest activation. An act begins there where it has a mark,
/// if a unit is left for it.
#[tactic(auto, using(crate::proofs::StepLemmas::unmarked_stride, crate::proofs::StepLemmas::marked_stride, crate::proofs::StepLemmas::spent_stride))]
fn step(
    tables: &CodeTables,
    machine: &mut Machine,
    writes: &mut Writes,
    bound: u64,
    block: &BlockCode,
    place: Place,
) -> Result<Stride, Memory>
    requires at_place { machine.old.standing ≡ standing.AtPlace }
    requires is_block { block.now ≡ block_at tables.now.blocks (block_of machine.old.here) }
    requires is_there { entry block.now.places machine.old.here.pc.0 ≡ Some place }
    ensures { IfOk result
        (λ r. Strides tables.now bound r machine.old writes.old machine.new writes.new) }
{
    let Some(mark) = place.mark else {
        return go_on(tables, machine, writes, block, place);
    };
    if machine.units >= bound {
        return Ok(Stride::Ends(MachineEnd::Spent));
    }
    begin_act(machine, writes, block, mark)?;
    go_on(tables, machine, writes, block, place)
}

/// Does a stride of the run, in which so many units may be taken: an instruction, with the act that
/// begins at it, or the end of a block (Language Reference 4.1).
///
/// # Errors
///
/// `Memory` for want of it.
#[tactic(auto, using(crate::proofs::StepLemmas::closed_stride))]
pub fn stride(
    tables: &CodeTables,
    machine: &mut Machine,
    writes: &mut Writes,
    bound: u64,
) -> Result<Stride, Memory>
    ensures { IfOk result
        (λ r. Strides tables.now bound r machine.old writes.old machine.new writes.new) }
{
    match machine.standing {
        Standing::AtPlace => {
            let block = block_of(machine, &tables.blocks);
            match block.places.at(machine.here.pc) {
                Some(place) => step(tables, machine, writes, bound, block, *place),
                None => Ok(Stride::Lacks),
            }
        }
        Standing::Returns(_) | Standing::Raises(_) => close(machine, writes, &tables.blocks),
    }
}
