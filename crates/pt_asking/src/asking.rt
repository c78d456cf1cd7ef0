//! Those that are still to be asked at an event, in the order of all: the log, a debugger, the
//! tools by their ids, and the trace function.
ghost use Rattle.std.specs.Prelude.{◌≡◌, ◌+◌, ◌≤◌, List, Bool};
ghost use Rattle.pt_heap.specs.declared.value.Value as values;
ghost use Rattle.pt_happenings.specs.Views.{event_view};
ghost use Rattle.pt_pendings.specs.Views.{left_view};
ghost use Rattle.sem_run.specs.run.Outcome.{Output};
ghost use Rattle.sem_steps.specs.Asking.{asked};
ghost use Rattle.sem_steps.specs.Steps.{minded};
ghost use Rattle.pt_asking.specs.Due.{due_by};
ghost use Rattle.pt_asking.specs.Asking.{asked_view, IsNextFrom};

use crate::{Asked, Hook, Next, Question, due};
use pt_happenings::Event;
use pt_monitor::Tools;
use pt_pendings::Left;
use pt_settrace::Hooks;

/// How many tools there are.
const TOOLS: u32 = 6;

/// The place of the first tool in the order.
const FIRST_TOOL: u32 = 2;

/// The place behind the last in the order.
const BEHIND_ALL: u32 = 9;

/// Who is asked next of those that are left: a debugger where it minds the event, and of the others
/// those whose function is due. A debugger is always asked about its jumps.
pub fn ask_next(left: Left, event: &Event, minds: bool, hooks: &Hooks, tools: &Tools) -> Asked
    ensures { (lines : List (Output values.Value)) → asked_view lines (event_view event.now) result
        ≡ asked (minded (λ e. minds)) lines (due_by hooks.now tools.now (event_view event.now))
        (event_view event.now) (left_view left) }
{
    match left {
        Left::From(place) => Asked {
            logs: place == 0,
            next: next_from(place, event, minds, hooks, tools),
        },
        Left::Landing(line) => Asked {
            logs: false,
            next: Next::Consulted {
                question: Question::Landing(line),
                behind: Left::From(BEHIND_ALL),
            },
        },
        Left::Refusal(reason, place) => Asked {
            logs: false,
            next: Next::Consulted {
                question: Question::Refusal(reason),
                behind: Left::From(place),
            },
        },
    }
}

/// Who is asked next from a place in the order on.
fn next_from(place: u32, event: &Event, minds: bool, hooks: &Hooks, tools: &Tools) -> Next
    ensures { IsNextFrom minds (due_by hooks.now tools.now (event_view event.now))
        (event_view event.now) place result }
{
    if place >= BEHIND_ALL {
        Next::Nobody
    } else if place >= FIRST_TOOL {
        next_function(place - FIRST_TOOL, event, hooks, tools)
    } else if event.what.is_for_debugger() && minds {
        Next::Consulted {
            question: Question::Event,
            behind: Left::From(FIRST_TOOL),
        }
    } else {
        next_function(0, event, hooks, tools)
    }
}

/// Whose function is called next, from a tool on.
fn next_function(first: u32, event: &Event, hooks: &Hooks, tools: &Tools) -> Next
    requires { first ≤ 6 }
    ensures { (minds : Bool) → IsNextFrom minds (due_by hooks.now tools.now (event_view event.now))
        (event_view event.now) (first + 2) result }
{
    for tool in first..TOOLS {
        let id = tool as u8;
        if let Some(function) = due::of_tool(id, event, tools) {
            return Next::Called {
                hook: Hook::Tool(id),
                function,
                behind: Left::From(tool + 1 + FIRST_TOOL),
            };
        }
    }
    next_tracer(event, hooks, tools)
}

/// Whether the trace function is called, the last of all.
fn next_tracer(event: &Event, hooks: &Hooks, tools: &Tools) -> Next
    ensures { (minds : Bool) → IsNextFrom minds (due_by hooks.now tools.now (event_view event.now))
        (event_view event.now) 8 result }
{
    match due::of_tracer(event, hooks) {
        Some(function) => Next::Called {
            hook: Hook::Tracer,
            function,
            behind: Left::From(BEHIND_ALL),
        },
        None => Next::Nobody,
    }
}
