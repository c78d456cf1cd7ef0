//! Strides that fast paths do and of which nothing is written.
ghost use Rattle.std.specs.Prelude.{◌≡◌, ◌<◌, ◌^◌, ℕ, Some, IfOk, IsTrue, MatchBool};
ghost use Rattle.pt_code_tables.specs.declared.tables.CodeTables.{CodeTables};
ghost use Rattle.pt_instr.specs.declared.Instr.TheVariants as instr;
ghost use Rattle.pt_machine.specs.FastStrides.{GoesSilently, HasUnit, IsSilent, begun};
ghost use Rattle.pt_machine.specs.Strides.{Strides};
ghost use Rattle.pt_code_tables.specs.pt_machine_state.Blocks.{block_at};
ghost use Rattle.pt_code_tables.specs.pt_machine_state.Views.{block_of};
ghost use Rattle.pt_code_tables.specs.pt_machine_state.declared.blocks.BlockCode.{BlockCode};
ghost use Rattle.pt_code_tables.specs.pt_machine_state.declared.machine.Standing.TheVariants as standing;
ghost use Rattle.pt_code_tables.specs.pt_machine_state.declared.machine.Stride.TheVariants as stride;
ghost use Rattle.pt_places.specs.PlaceTable.{entry};

use crate::fast::perform_fast;
use pt_base::Memory;
use pt_code_tables::{BlockCode, CodeTables, Machine, Standing, Writes};
use pt_fast_rows::fast_return;
use pt_heap::Completion;
use pt_instr::Instr;
use pt_places::Place;
use pt_progress::{block_of, go_to, is_told, leave_place};
use pt_ranges::ActMark;

/// Whether a unit is left for the act that begins with a mark, if there is one, and nothing is
/// written of its line.
#[tactic(auto, using(crate::proofs::SilentLemmas::untold, crate::proofs::SilentLemmas::without_events))]
fn begins_silently(machine: &Machine, writes: &Writes, bound: u64, mark: Option<ActMark>) -> bool
    ensures unit { IsTrue result → HasUnit mark bound machine.now.units }
    ensures silent { (block : BlockCode) → IsTrue result
        → IsSilent mark block writes.now machine.now }
{
    let Some(mark) = mark else {
        return true;
    };
    if machine.units >= bound {
        return false;
    }
    if writes.events {
        return !is_told(machine.here.line, mark);
    }
    true
}

/// The act begins that has this mark, if there is one: it takes its unit, and the frame has its
/// line.
fn begin_silently(machine: &mut Machine, mark: Option<ActMark>)
    requires { (n : ℕ) × ((n < 2 ^ 64) × HasUnit mark n machine.old.units) }
    ensures { machine.new ≡ begun mark machine.old }
{
    if let Some(mark) = mark {
        machine.units += 1;
        machine.here.line = Some(mark.line);
    }
}

/// Returns a value from a place, if one is there; else nothing changes (Language Reference 7.6).
#[tactic(auto, using(crate::proofs::SilentLemmas::returned))]
fn return_silently(machine: &mut Machine, block: &BlockCode, place: &Place) -> Result<bool, Memory>
    requires unit { (n : ℕ) × ((n < 2 ^ 64) × HasUnit place.now.mark n machine.old.units) }
    requires returns { place.now.instr ≡ instr.Return }
    ensures { IfOk result (λ done. (tables : CodeTables) → MatchBool done
        (GoesSilently tables block.now place.now machine.old machine.new)
        (machine.new ≡ machine.old)) }
{
    let Some(value) = fast_return(&mut machine.here.slots) else {
        return Ok(false);
    };
    begin_silently(machine, place.mark);
    leave_place(machine, block, place.next, Completion::Return(value))?;
    Ok(true)
}

/// Does what stands at a place by a fast path that leads to another one, if there is one for it;
/// else nothing changes.
#[tactic(auto, using(crate::proofs::SilentLemmas::went_fast))]
fn go_silently(tables: &CodeTables, machine: &mut Machine, place: &Place) -> Result<bool, Memory>
    requires unit { (n : ℕ) × ((n < 2 ^ 64) × HasUnit place.now.mark n machine.old.units) }
    requires other { place.now.instr ≡ instr.RaiseAgain → ⊥ }
    ensures { IfOk result (λ done. (block : BlockCode) → MatchBool done
        (GoesSilently tables.now block place.now machine.old machine.new)
        (machine.new ≡ machine.old)) }
{
    let Some(pc) = perform_fast(tables, machine, place.instr, place.next)? else {
        return Ok(false);
    };
    begin_silently(machine, place.mark);
    go_to(machine, pc);
    Ok(true)
}

/// Does what stands at the place of the newest activation by a fast path, if there is one for it
/// and nothing is written; else nothing changes.
fn fast_step(
    tables: &CodeTables,
    machine: &mut Machine,
    writes: &Writes,
    bound: u64,
    block: &BlockCode,
    place: &Place,
) -> Result<bool, Memory>
    requires at_place { machine.old.standing ≡ standing.AtPlace }
    requires is_block { block.now ≡ block_at tables.now.blocks (block_of machine.old.here) }
    requires is_there { entry block.now.places machine.old.here.pc.0 ≡ Some place.now }
    ensures { IfOk result (λ done. MatchBool done
        (Strides tables.now bound stride.Goes machine.old writes.now machine.new writes.now)
        (machine.new ≡ machine.old)) }
{
    if !begins_silently(machine, writes, bound, place.mark) {
        return Ok(false);
    }
    match place.instr {
        Instr::Return => return_silently(machine, block, place),
        Instr::RaiseAgain => Ok(false),
        _ => go_silently(tables, machine, place),
    }
}

/// Does a stride of the run, in which so many units may be taken, by a fast path, if there is one
/// for what is next and nothing is written, and answers whether it did. Else nothing changes.
///
/// # Errors
///
/// `Memory` for want of it.
pub fn fast_stride(
    tables: &CodeTables,
    machine: &mut Machine,
    writes: &Writes,
    bound: u64,
) -> Result<bool, Memory>
    ensures { IfOk result (λ done. MatchBool done
        (Strides tables.now bound stride.Goes machine.old writes.now machine.new writes.now)
        (machine.new ≡ machine.old)) }
{
    match machine.standing {
        Standing::AtPlace => {
            let block = block_of(machine, &tables.blocks);
            match block.places.at(machine.here.pc) {
                Some(place) => fast_step(tables, machine, writes, bound, block, place),
                None => Ok(false),
            }
        }
        Standing::Returns(_) | Standing::Raises(_) => Ok(false),
    }
}
