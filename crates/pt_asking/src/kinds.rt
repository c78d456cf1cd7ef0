//! The events of `sys.monitoring` and of `sys.settrace` that something told is.
ghost use Rattle.std.specs.Prelude.{◌≡◌, option_map};
ghost use Rattle.sem_run.specs.run.Events.{bit, trace_kind};
ghost use Rattle.pt_happenings.specs.Views.{happening_view};
ghost use Rattle.pt_monitor.specs.Events.{bit_of};
ghost use Rattle.pt_settrace.specs.Tracing.{kind_of};

use pt_events::EventKind;
use pt_happenings::Happening;
use pt_monitor::MonEvent;

/// The event of `sys.monitoring`.
pub fn monitored(what: &Happening) -> MonEvent
    ensures { bit_of result ≡ bit (happening_view what.now) }
{
    match what {
        Happening::Starts => MonEvent::PyStart,
        Happening::Resumes => MonEvent::PyResume,
        Happening::Returns(_) => MonEvent::PyReturn,
        Happening::Yields(_) => MonEvent::PyYield,
        Happening::Throws(_) => MonEvent::PyThrow,
        Happening::Unwinds(_) => MonEvent::PyUnwind,
        Happening::Calls { .. } => MonEvent::Call,
        Happening::ReturnsFrom { .. } => MonEvent::CReturn,
        Happening::RaisesFrom { .. } => MonEvent::CRaise,
        Happening::Line { .. } => MonEvent::Line,
        Happening::Jumps { .. } => MonEvent::Jump,
        Happening::Branches { .. } => MonEvent::Branch,
        Happening::Raises(_) => MonEvent::Raise,
        Happening::RaisesAgain(_) => MonEvent::Reraise,
        Happening::Handled(_) => MonEvent::ExceptionHandled,
        Happening::Stops(_) => MonEvent::StopIteration,
    }
}

/// Which of the four kinds of `sys.settrace` it is, if it is of one.
pub fn traced(what: &Happening) -> Option<EventKind>
    ensures { option_map kind_of result ≡ trace_kind (happening_view what.now) }
{
    match what {
        Happening::Starts | Happening::Resumes | Happening::Throws(_) => Some(EventKind::Call),
        Happening::Line { .. } => Some(EventKind::Line),
        Happening::Returns(_) | Happening::Yields(_) | Happening::Unwinds(_) => {
            Some(EventKind::Return)
        }
        Happening::Raises(_) => Some(EventKind::Exception),
        Happening::Calls { .. }
        | Happening::ReturnsFrom { .. }
        | Happening::RaisesFrom { .. }
        | Happening::Jumps { .. }
        | Happening::Branches { .. }
        | Happening::RaisesAgain(_)
        | Happening::Handled(_)
        | Happening::Stops(_) => None,
    }
}
