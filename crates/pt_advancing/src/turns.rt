//! A turn of the machine, whatever is going on.
ghost use Rattle.std.specs.Prelude.{◌≡◌, true, IfOk};
ghost use Rattle.pt_closing.specs.pt_beginning.pt_machine_state.declared.machine.Standing.TheVariants as code;
ghost use Rattle.pt_closing.specs.pt_turning.pt_telling.Asks.{is_telling};
ghost use Rattle.pt_advancing.specs.Advancing.{AdvancesIn, AdvancesSo, found_on, turning_in};
ghost use Rattle.pt_advancing.specs.Proceeding.{turned};

use crate::lines::leave_profile;
use crate::onward::{Advanced, end_block_and_proceed, proceed};
use crate::raise::go_on_raising;
use pt_base::{Memory, What};
use pt_closing::{BlockCode, Blocks, Found, Machine, Phase, Standing, Turn, Writes, ask};
use pt_pendings::End;

/// What was found at the event goes on. No function of a hook can be called yet.
fn go_on_from(machine: &mut Machine, blocks: &Blocks, block: &BlockCode, found: Found) -> Advanced
    ensures { record { advanced = result; machine = machine.new }
        ≡ found_on blocks.now block.now found machine.old }
{
    match found {
        Found::Event => Advanced::Turned(Turn::Goes),
        Found::Onward(waiting) => proceed(machine, block, waiting),
        Found::Asks(question) => Advanced::Turned(Turn::Asks(question)),
        Found::Calls { .. } => {
            Advanced::Turned(Turn::Ends(leave_profile(machine, blocks, What::Feature)))
        }
    }
}

/// A turn in which the next one is asked at the event that is told.
#[tactic(auto, using(crate::proofs::Phases::told_so))]
fn advance_telling(
    machine: &mut Machine,
    writes: &mut Writes,
    blocks: &Blocks,
    block: &BlockCode,
    minds: bool,
) -> Result<Advanced, Memory>
    requires { is_telling machine.old.phase ≡ true }
    ensures { IfOk result (λ a. AdvancesIn blocks.now block.now minds machine.old.phase a
        machine.old writes.old machine.new writes.new) }
{
    let found = ask(machine, block, writes, minds)?;
    Ok(go_on_from(machine, blocks, block, found))
}

/// A turn of the block's code, in an activation that stands so.
fn advance_turning(
    machine: &mut Machine,
    block: &BlockCode,
    standing: Standing,
) -> Result<Advanced, Memory>
    requires { machine.old.code.standing ≡ code.AtPlace }
    ensures { IfOk result (λ a. record { advanced = a; machine = machine.new }
        ≡ turned block.now standing machine.old) }
{
    match standing {
        Standing::Returns(value) => end_block_and_proceed(machine, block, End::Gave(value)),
        Standing::Raises(exception) => {
            end_block_and_proceed(machine, block, End::LeftBy(exception))
        }
        Standing::Reraises(exception) => go_on_raising(machine, block, exception),
        Standing::AtPlace | Standing::Landed | Standing::ThrownTo(_) => {
            Ok(Advanced::AtInstruction(standing))
        }
    }
}

/// Where the activation stands whose code turns next, if no event is told.
fn turning_in(machine: &Machine) -> Option<Standing>
    ensures { result ≡ turning_in machine.now.phase }
{
    match &machine.phase {
        Phase::Turning { standing } => Some(*standing),
        Phase::Telling { .. } => None,
    }
}

/// Does a turn of the machine, but for instructions and for what goes on behind an ask or with a
/// result: those it answers, with all before them done. Where an event is told a debugger minds it or
/// doesn't. What is written meanwhile is put behind what was to be written.
///
/// # Errors
///
/// `Memory` for want of it.
#[tactic(auto, using(crate::proofs::Phases::turned_so, crate::proofs::Phases::is_told))]
pub fn advance(
    machine: &mut Machine,
    writes: &mut Writes,
    blocks: &Blocks,
    minds: bool,
) -> Result<Advanced, Memory>
    requires { machine.old.code.standing ≡ code.AtPlace }
    ensures { IfOk result (λ a. AdvancesSo blocks.now minds machine.old a writes.old machine.new
        writes.new) }
{
    let block = blocks.at(machine.code.here.block, machine.code.here.hidden);
    match turning_in(machine) {
        Some(standing) => advance_turning(machine, block, standing),
        None => advance_telling(machine, writes, blocks, block, minds),
    }
}
