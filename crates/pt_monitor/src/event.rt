ghost use Rattle.std.specs.Prelude.{◌≡◌, option_map};
ghost use Rattle.sem_run.specs.run.Tools as tools;
ghost use Rattle.sem_run.specs.run.Tools.{is_local, needs_call, only_bit, unsigned};
ghost use Rattle.pt_monitor.specs.Events.{bit_of};

use crate::EventSet;

/// The events of sys.monitoring, in the order of their bits.
#[derive(Clone, Copy, Debug, PartialEq, Eq)]
pub enum MonEvent {
    PyStart,
    PyResume,
    PyReturn,
    PyYield,
    PyThrow,
    PyUnwind,
    Call,
    CReturn,
    CRaise,
    Line,
    Jump,
    Branch,
    Raise,
    Reraise,
    ExceptionHandled,
    StopIteration,
}

/// All events, in the order of their bits.
pub const EVENTS: [MonEvent; 16] = [
    MonEvent::PyStart,
    MonEvent::PyResume,
    MonEvent::PyReturn,
    MonEvent::PyYield,
    MonEvent::PyThrow,
    MonEvent::PyUnwind,
    MonEvent::Call,
    MonEvent::CReturn,
    MonEvent::CRaise,
    MonEvent::Line,
    MonEvent::Jump,
    MonEvent::Branch,
    MonEvent::Raise,
    MonEvent::Reraise,
    MonEvent::ExceptionHandled,
    MonEvent::StopIteration,
];

impl MonEvent {
    /// The event whose bit alone is set in a number.
    pub fn of_bits(bits: i128) -> Option<MonEvent>
        ensures { option_map bit_of result ≡ only_bit (unsigned bits) tools.bits }
    {
        let Some(set) = EventSet::listed(bits) else {
            return None;
        };
        only_event(set.0)
    }

    /// The number of its bit in sets of events.
    pub fn bit(self) -> u32
        ensures { result ≡ bit_of self }
    {
        match self {
            MonEvent::PyStart => 0,
            MonEvent::PyResume => 1,
            MonEvent::PyReturn => 2,
            MonEvent::PyYield => 3,
            MonEvent::PyThrow => 4,
            MonEvent::PyUnwind => 5,
            MonEvent::Call => 6,
            MonEvent::CReturn => 7,
            MonEvent::CRaise => 8,
            MonEvent::Line => 9,
            MonEvent::Jump => 10,
            MonEvent::Branch => 11,
            MonEvent::Raise => 12,
            MonEvent::Reraise => 13,
            MonEvent::ExceptionHandled => 14,
            MonEvent::StopIteration => 15,
        }
    }

    /// Whether it has a place of its own, at which a callback can switch it off.
    pub fn is_local(self) -> bool
        ensures { result ≡ is_local (bit_of self) }
    {
        match self {
            MonEvent::PyStart
            | MonEvent::PyResume
            | MonEvent::PyReturn
            | MonEvent::PyYield
            | MonEvent::Call
            | MonEvent::Line
            | MonEvent::Jump
            | MonEvent::Branch
            | MonEvent::StopIteration => true,
            MonEvent::PyThrow
            | MonEvent::PyUnwind
            | MonEvent::CReturn
            | MonEvent::CRaise
            | MonEvent::Raise
            | MonEvent::Reraise
            | MonEvent::ExceptionHandled => false,
        }
    }

    /// Whether a set gives it only where it has CALL too.
    pub fn needs_call(self) -> bool
        ensures { result ≡ needs_call (bit_of self) }
    {
        match self {
            MonEvent::CReturn | MonEvent::CRaise => true,
            _ => false,
        }
    }
}

/// The event of a set of one.
fn only_event(bits: u32) -> Option<MonEvent>
    ensures { option_map bit_of result ≡ only_bit bits tools.bits }
{
    match bits {
        0x1 => Some(MonEvent::PyStart),
        0x2 => Some(MonEvent::PyResume),
        0x4 => Some(MonEvent::PyReturn),
        0x8 => Some(MonEvent::PyYield),
        0x10 => Some(MonEvent::PyThrow),
        0x20 => Some(MonEvent::PyUnwind),
        0x40 => Some(MonEvent::Call),
        0x80 => Some(MonEvent::CReturn),
        0x100 => Some(MonEvent::CRaise),
        0x200 => Some(MonEvent::Line),
        0x400 => Some(MonEvent::Jump),
        0x800 => Some(MonEvent::Branch),
        0x1000 => Some(MonEvent::Raise),
        0x2000 => Some(MonEvent::Reraise),
        0x4000 => Some(MonEvent::ExceptionHandled),
        0x8000 => Some(MonEvent::StopIteration),
        _ => None,
    }
}
