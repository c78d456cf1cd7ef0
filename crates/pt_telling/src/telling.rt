//! What is told becomes an event, if anything is told.
ghost use Rattle.std.specs.Prelude.{◌≡◌, ◌∷◌, [], IfOk, MatchOption};
ghost use Rattle.pt_telling.specs.Telling.{event_at, is_silent, told, with_event};

use crate::entering::{enter_all_told, enter_told};
use pt_base::{Memory, Seq};
use pt_happenings::{Event, Happening};
use pt_pendings::{Left, Telling};
use pt_tracing::{BlockCode, Machine, Phase, Waiting, line};
use std::alloc::Global;

/// Whether nothing is told: the newest block is hidden, or a hook runs.
pub fn is_silent(machine: &Machine) -> bool
    ensures { result ≡ is_silent machine.now }
{
    machine.code.here.hidden || machine.openers.hook_runs()
}

/// What happens in the newest activation.
fn event_at(machine: &Machine, block: &BlockCode, what: Happening) -> Event
    ensures { result ≡ event_at block.now what machine.now }
{
    let code = &machine.code;
    Event {
        what,
        frame: code.here.frame,
        block: code.here.block,
        act: machine.course.act,
        line: line(code, block),
        generator: machine.course.generator,
    }
}

/// An event is told, at which all are still to be asked.
fn begin_event(machine: &mut Machine, event: Event, behind: Seq<Happening>, waiting: Waiting)
    ensures { machine.new ≡ with_event waiting event behind machine.old }
{
    machine.phase = Phase::Telling {
        standing: waiting.standing,
        active: waiting.active,
        telling: Telling {
            event,
            left: Left::From(0),
            behind,
            pending: waiting.pending,
        },
    };
}

/// The first of these and those behind it, if there are any.
fn first_of(
    alloc: Global,
    told: &Seq<Happening>,
) -> Result<Option<(Happening, Seq<Happening>)>, Memory>
    ensures { IfOk result (λ o. MatchOption o (told.now ≡ []) (λ p. told.now ≡ p.0 ∷ p.1)) }
{
    let items = told.as_slice();
    match items.split_first() {
        Some((first, behind)) => Ok(Some((*first, Seq::from_slice(alloc, behind)?))),
        None => Ok(None),
    }
}

/// Tells all of this in the newest activation, of this block, behind which goes on what waits. It answers whether an
/// event is told, at which hooks are to be asked; where none is, what waits goes on.
///
/// # Errors
///
/// `Memory` for want of it.
pub fn tell(
    machine: &mut Machine,
    block: &BlockCode,
    happenings: Seq<Happening>,
    waiting: Waiting,
) -> Result<bool, Memory>
    ensures { IfOk result (λ event. record { event = event; machine = machine.new }
        ≡ told block.now waiting happenings machine.old) }
{
    if is_silent(machine) {
        enter_all_told(machine, block, happenings.as_slice())?;
        return Ok(false);
    }
    let Some((first, behind)) = first_of(machine.code.alloc, &happenings)? else {
        return Ok(false);
    };
    enter_told(machine, block, first)?;
    let event = event_at(machine, block, first);
    begin_event(machine, event, behind, waiting);
    Ok(true)
}
