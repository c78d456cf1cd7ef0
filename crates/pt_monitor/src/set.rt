ghost use Rattle.std.specs.Prelude.{⊤, ◌≡◌, ◌^◌, [], ◌∷◌, codes, option_map};
ghost use Rattle.sem_run.specs.run.Tools.{has, gives, are_local};
ghost use Rattle.pt_monitor.specs.declared.event.MonEvent.{MonEvent};
ghost use Rattle.pt_monitor.specs.Events.{bit_of, listed};

use crate::MonEvent;
use bitflags::{Flag, Flags};

/// The greatest set of events.
const ALL: u32 = 0xffff;

/// All events but C_RETURN and C_RAISE.
const WITHOUT_C: EventSet = EventSet(0xfe7f);

/// A set of events: the number with their bits.
#[derive(Clone, Copy, Debug, PartialEq, Eq)]
pub struct EventSet(pub u32);

impl EventSet {
    pub const PY_START: EventSet = EventSet(0x1);

    pub const PY_RESUME: EventSet = EventSet(0x2);

    pub const PY_RETURN: EventSet = EventSet(0x4);

    pub const PY_YIELD: EventSet = EventSet(0x8);

    pub const PY_THROW: EventSet = EventSet(0x10);

    pub const PY_UNWIND: EventSet = EventSet(0x20);

    pub const CALL: EventSet = EventSet(0x40);

    pub const C_RETURN: EventSet = EventSet(0x80);

    pub const C_RAISE: EventSet = EventSet(0x100);

    pub const LINE: EventSet = EventSet(0x200);

    pub const JUMP: EventSet = EventSet(0x400);

    pub const BRANCH: EventSet = EventSet(0x800);

    pub const RAISE: EventSet = EventSet(0x1000);

    pub const RERAISE: EventSet = EventSet(0x2000);

    pub const EXCEPTION_HANDLED: EventSet = EventSet(0x4000);

    pub const STOP_ITERATION: EventSet = EventSet(0x8000);

    /// Each event with its name.
    pub const FLAGS: &'static [Flag<EventSet>] = &[
        Flag {
            name: "PY_START",
            value: EventSet::PY_START,
        },
        Flag {
            name: "PY_RESUME",
            value: EventSet::PY_RESUME,
        },
        Flag {
            name: "PY_RETURN",
            value: EventSet::PY_RETURN,
        },
        Flag {
            name: "PY_YIELD",
            value: EventSet::PY_YIELD,
        },
        Flag {
            name: "PY_THROW",
            value: EventSet::PY_THROW,
        },
        Flag {
            name: "PY_UNWIND",
            value: EventSet::PY_UNWIND,
        },
        Flag {
            name: "CALL",
            value: EventSet::CALL,
        },
        Flag {
            name: "C_RETURN",
            value: EventSet::C_RETURN,
        },
        Flag {
            name: "C_RAISE",
            value: EventSet::C_RAISE,
        },
        Flag {
            name: "LINE",
            value: EventSet::LINE,
        },
        Flag {
            name: "JUMP",
            value: EventSet::JUMP,
        },
        Flag {
            name: "BRANCH",
            value: EventSet::BRANCH,
        },
        Flag {
            name: "RAISE",
            value: EventSet::RAISE,
        },
        Flag {
            name: "RERAISE",
            value: EventSet::RERAISE,
        },
        Flag {
            name: "EXCEPTION_HANDLED",
            value: EventSet::EXCEPTION_HANDLED,
        },
        Flag {
            name: "STOP_ITERATION",
            value: EventSet::STOP_ITERATION,
        },
    ];
}

impl Flags for EventSet {
    type Bits = u32;

    ghost exact = { ⊤ };

    ghost table = { (codes "PY_START", 1) ∷ (codes "PY_RESUME", 2) ∷ (codes "PY_RETURN", 4) ∷ (codes "PY_YIELD", 8)
        ∷ (codes "PY_THROW", 16) ∷ (codes "PY_UNWIND", 32) ∷ (codes "CALL", 64) ∷ (codes "C_RETURN", 128)
        ∷ (codes "C_RAISE", 256) ∷ (codes "LINE", 512) ∷ (codes "JUMP", 1024) ∷ (codes "BRANCH", 2048)
        ∷ (codes "RAISE", 4096) ∷ (codes "RERAISE", 8192) ∷ (codes "EXCEPTION_HANDLED", 16384)
        ∷ (codes "STOP_ITERATION", 32768) ∷ [] };

    ghost set_of = { λ s. s.0 };

    fn flags<'a>() -> &'a [Flag<EventSet>] {
        EventSet::FLAGS
    }

    fn bits(&self) -> u32 {
        self.0
    }

    fn from_bits_retain(bits: u32) -> EventSet {
        EventSet(bits)
    }
}

impl MonEvent {
    /// The set with this event alone.
    pub fn flag(self) -> EventSet
        ensures { result.0 ≡ 2 ^ bit_of self }
    {
        match self {
            MonEvent::PyStart => EventSet::PY_START,
            MonEvent::PyResume => EventSet::PY_RESUME,
            MonEvent::PyReturn => EventSet::PY_RETURN,
            MonEvent::PyYield => EventSet::PY_YIELD,
            MonEvent::PyThrow => EventSet::PY_THROW,
            MonEvent::PyUnwind => EventSet::PY_UNWIND,
            MonEvent::Call => EventSet::CALL,
            MonEvent::CReturn => EventSet::C_RETURN,
            MonEvent::CRaise => EventSet::C_RAISE,
            MonEvent::Line => EventSet::LINE,
            MonEvent::Jump => EventSet::JUMP,
            MonEvent::Branch => EventSet::BRANCH,
            MonEvent::Raise => EventSet::RAISE,
            MonEvent::Reraise => EventSet::RERAISE,
            MonEvent::ExceptionHandled => EventSet::EXCEPTION_HANDLED,
            MonEvent::StopIteration => EventSet::STOP_ITERATION,
        }
    }
}

impl EventSet {
    /// The set of a number, if each of its bits is that of an event.
    pub fn listed(bits: i128) -> Option<EventSet>
        ensures { option_map (λ s. s.0) result ≡ listed bits }
    {
        let Ok(bits) = u32::try_from(bits) else {
            return None;
        };
        if bits <= ALL {
            Some(EventSet(bits))
        } else {
            None
        }
    }

    /// Whether it has an event.
    pub fn has(self, event: MonEvent) -> bool
        ensures { result ≡ has self.0 (bit_of event) }
    {
        self.contains(event.flag())
    }

    /// Whether it gives an event: C_RETURN and C_RAISE only with CALL.
    pub fn gives(self, event: MonEvent) -> bool
        ensures { result ≡ gives self.0 (bit_of event) }
    {
        self.has(event) & (!event.needs_call() | self.has(MonEvent::Call))
    }

    /// The events that it gives.
    pub fn given(self) -> EventSet
        ensures { (e : MonEvent) → has result.0 (bit_of e) ≡ gives self.0 (bit_of e) }
    {
        if self.has(MonEvent::Call) {
            self
        } else {
            self.intersection(WITHOUT_C)
        }
    }

    /// Whether each of its events has a place of its own, so that a block's own set can have it.
    pub fn is_local(self) -> bool
        ensures { result ≡ are_local self.0 }
    {
        !(self.has(MonEvent::PyThrow)
            | self.has(MonEvent::PyUnwind)
            | self.has(MonEvent::CReturn)
            | self.has(MonEvent::CRaise)
            | self.has(MonEvent::Raise)
            | self.has(MonEvent::Reraise)
            | self.has(MonEvent::ExceptionHandled))
    }
}
