//! What a run takes, counted stride by stride.

ghost use Rattle.std.specs.Prelude.{◌≡◌};
ghost use Rattle.std.specs.Option.{option_copied};
ghost use Rattle.pt_runner.specs.Advancing.{counted, next_over, stopped_spent};

use crate::ending::{RunEnd, Totals};
use pt_transfers::{Machine, Standing};

/// How many slots lie where an instruction is next, if one is.
pub(crate) fn next_over(machine: &Machine) -> Option<usize>
    ensures { result ≡ next_over machine.now.standing machine.now.here }
{
    match machine.standing {
        Standing::AtPlace => Some(machine.here.slots.len()),
        Standing::Returns(_) | Standing::Raises(_) => None,
    }
}

/// Whether the run ended since no act might begin any more.
pub(crate) fn stopped_spent(stop: &Option<RunEnd>) -> bool
    ensures { result ≡ stopped_spent stop.now }
{
    matches!(stop, Some(RunEnd::Spent))
}

impl Totals {
    /// Counts a stride from where an instruction was next over so many slots, if one was.
    pub(crate) fn count(&mut self, next: Option<usize>, is_spent: bool, units: u64)
        ensures { self.new ≡ counted next is_spent units self.old }
    {
        let (instructions, slots) = match next {
            Some(slots) => (!is_spent as u64, slots as u64),
            None => (0, 0),
        };
        self.acts = units;
        self.instructions = self.instructions.saturating_add(instructions);
        self.depth = self.depth.max(slots);
    }
}
