//! Those are asked who are left at the event that is told.
ghost use Rattle.std.specs.Prelude.{◌≡◌, [], true, if◌then◌else◌, IfOk};
ghost use Rattle.pt_tracing.specs.pt_machine_state.Writing.{Adds};
ghost use Rattle.pt_telling.specs.Asks.{event_lines, Finds, FindsIn, found_by, IsNext};
ghost use Rattle.pt_telling.specs.Asks.{is_telling, leaving, told_behind};

use crate::logging::log_event;
use crate::telling::tell;
use pt_asking::{Asked, Hook, Next, Question, ask_next};
use pt_base::Memory;
use pt_heap::Value;
use pt_pendings::{Left, Telling};
use pt_tracing::{BlockCode, Machine, Phase, Standing, Waiting, Writes};
use std::mem;

/// What is found at an event that is told.
#[derive(Clone, Copy)]
pub enum Found {
    /// Another event is told, at which hooks are to be asked.
    Event,
    /// Nothing more is told, and this goes on.
    Onward(Waiting),
    /// A debugger is consulted.
    Asks(Question),
    /// A function is to be called with the event.
    Calls { hook: Hook, function: Value },
}

/// Who is asked next at an event, and the event's lines are written if that is told.
fn next_asked(
    machine: &Machine,
    block: &BlockCode,
    writes: &mut Writes,
    minds: bool,
    telling: &Telling,
) -> Result<Asked, Memory>
    ensures next { IfOk result (λ a. IsNext minds machine.now telling.now a) }
    ensures lines { IfOk result (λ a. Adds writes.old writes.new
        (if a.logs then event_lines block.now telling.now.event machine.now.code.heap else [])) }
{
    let event = &telling.event;
    let asked = ask_next(telling.left, event, minds, &machine.hooks, &machine.tools);
    if asked.logs {
        log_event(&machine.code.heap, block, event, writes)?;
    }
    Ok(asked)
}

/// These are still to be asked.
fn leave(
    machine: &mut Machine,
    left: Left,
    standing: Standing,
    active: Option<Value>,
    telling: Telling,
)
    ensures { machine.new ≡ leaving left standing active telling machine.old }
{
    machine.phase = Phase::Telling {
        standing,
        active,
        telling: Telling {
            event: telling.event,
            left,
            behind: telling.behind,
            pending: telling.pending,
        },
    };
}

/// Nobody is asked any more: what else is told there is next, and then what waits.
fn tell_behind(
    machine: &mut Machine,
    block: &BlockCode,
    waiting: Waiting,
    telling: Telling,
) -> Result<Found, Memory>
    ensures { IfOk result (λ found. record { found = found; machine = machine.new }
        ≡ told_behind block.now waiting telling machine.old) }
{
    machine.phase = Phase::Turning {
        standing: Standing::AtPlace,
    };
    if tell(machine, block, telling.behind, waiting)? {
        return Ok(Found::Event);
    }
    Ok(Found::Onward(waiting))
}

/// What is found by who is asked next.
fn find(
    machine: &mut Machine,
    block: &BlockCode,
    next: Next,
    standing: Standing,
    active: Option<Value>,
    telling: Telling,
) -> Result<Found, Memory>
    ensures { IfOk result (λ found. record { found = found; machine = machine.new }
        ≡ found_by block.now next standing active telling machine.old) }
{
    match next {
        Next::Nobody => {
            let waiting = Waiting {
                standing,
                active,
                pending: telling.pending,
            };
            tell_behind(machine, block, waiting, telling)
        }
        Next::Consulted { question, behind } => {
            leave(machine, behind, standing, active, telling);
            Ok(Found::Asks(question))
        }
        Next::Called {
            hook,
            function,
            behind,
        } => {
            leave(machine, behind, standing, active, telling);
            Ok(Found::Calls { hook, function })
        }
    }
}

/// Asks the next one at an event that is told, where a debugger minds it or doesn't. The event's
/// lines are written first.
fn ask_at(
    machine: &mut Machine,
    block: &BlockCode,
    writes: &mut Writes,
    minds: bool,
    standing: Standing,
    active: Option<Value>,
    telling: Telling,
) -> Result<Found, Memory>
    ensures { IfOk result (λ found. Finds block.now minds standing active
        telling found machine.old writes.old machine.new writes.new) }
{
    let asked = next_asked(machine, block, writes, minds, &telling)?;
    find(machine, block, asked.next, standing, active, telling)
}

/// Asks the next one who is left at the event that is told in the newest activation, of this block,
/// where a debugger minds the event or doesn't: the lines of the event are written, and nobody, a
/// debugger or a function comes next. Where nobody does, what else is told there is told.
///
/// # Errors
///
/// `Memory` for want of it.
pub fn ask(
    machine: &mut Machine,
    block: &BlockCode,
    writes: &mut Writes,
    minds: bool,
) -> Result<Found, Memory>
    requires { is_telling machine.old.phase ≡ true }
    ensures { IfOk result (λ found. FindsIn block.now minds machine.old.phase
        found machine.old writes.old machine.new writes.new) }
{
    let nothing = Phase::Turning {
        standing: Standing::AtPlace,
    };
    match mem::replace(&mut machine.phase, nothing) {
        Phase::Turning { .. } => unreachable!(),
        Phase::Telling {
            standing,
            active,
            telling,
        } => ask_at(machine, block, writes, minds, standing, active, telling),
    }
}
