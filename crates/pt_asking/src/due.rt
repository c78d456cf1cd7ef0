//! The functions of hooks that are due at an event, by what is kept of them.
ghost use Rattle.std.specs.Prelude.{◌≡◌};
ghost use Rattle.sem_run.specs.run.Tools.{wants};
ghost use Rattle.pt_happenings.specs.Views.{event_view};
ghost use Rattle.pt_asking.specs.Due.{location_of, tracer_due};

use crate::kinds;
use pt_events::{Event as Traced, EventKind};
use pt_happenings::Event;
use pt_heap::Value;
use pt_monitor::Tools;
use pt_settrace::Hooks;

/// The callback of a tool that is due at an event (Library Reference, `sys.monitoring`).
pub fn of_tool(tool: u8, event: &Event, tools: &Tools) -> Option<Value>
    ensures { result ≡ wants tools.now (location_of tool (event_view event.now)) }
{
    let what = kinds::monitored(&event.what);
    tools.due(tool, what, event.block, event.act)
}

/// The trace function that is due at an event (Library Reference, `sys.settrace`).
pub fn of_tracer(event: &Event, hooks: &Hooks) -> Option<Value>
    ensures { result ≡ tracer_due hooks.now (event_view event.now) }
{
    match kinds::traced(&event.what) {
        Some(kind) => hooks.due(&traced_event(kind, event)),
        None => None,
    }
}

/// An event of one of the four kinds.
fn traced_event(kind: EventKind, event: &Event) -> Traced
    ensures kind { result.kind ≡ kind }
    ensures frame { result.frame ≡ event.now.frame }
{
    Traced {
        kind,
        frame: event.frame,
        block: event.block,
        act: event.act,
        line: event.line,
        generator: event.generator,
    }
}
