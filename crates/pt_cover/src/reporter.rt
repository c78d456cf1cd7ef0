ghost use Rattle.std.specs.Prelude.{◌≡◌, ◌≤◌, ◌<◌, ◌∷◌, [], Err, IfOk};
ghost use Rattle.pt_base.specs.Faults.{Rose};
ghost use Rattle.pt_cover.specs.HasTaken.{counts_of};
ghost use Rattle.pt_cover.specs.Passed.{PassesOn, first_failure};
ghost use Rattle.pt_cover.specs.Kept.{HasDifferentRows, counts_then, report_of};

use crate::counts::Counts;
use crate::kind::ReportKind;
use crate::passing::Passing;
use pt_base::{Line, Memory, Sink, SinkErr, Text};
use std::alloc::Global;
use std::marker::Model;

/// Counts, with room for their report.
#[derive(Debug, Drop)]
pub struct Reporter {
    counts: Counts,
    room: Vec<u8>,
}

impl Model for Reporter {
    ghost use Rattle.std.specs.Prelude.{◌≤◌, vec_capacity};
    ghost use Rattle.pt_cover.specs.declared.counts.Counts.{Counts};

    ghost Value = { Counts };

    ghost use Rattle.pt_cover.specs.Kept.{room_for, HasDifferentRows};

    ghost view = { λ r. r.counts };

    ghost invariant = { λ r.
        (room_for r.counts ≤ vec_capacity r.room) × HasDifferentRows r.counts };
}

impl Reporter {
    /// For a report of these lines or of these names, before any event. It takes all the room that
    /// counting and the report need.
    pub fn of(
        alloc: Global,
        kind: ReportKind,
        lines: &[Line],
        names: &[Text],
    ) -> Result<Reporter, Memory>
        ensures { IfOk result (λ r. r ≡ counts_of kind lines.now names.now) }
    {
        let counts = Counts::new(alloc, kind, lines, names)?;
        Reporter::new(alloc, counts)
    }

    /// Over these counts. It takes all the room that their report needs.
    fn new(alloc: Global, counts: Counts) -> Result<Reporter, Memory>
        requires { HasDifferentRows counts }
        ensures { IfOk result (λ r. r ≡ counts) }
    {
        let needed = counts.room().ok_or(Memory)?;
        Ok(Reporter {
            counts,
            room: Vec::with_capacity(alloc, needed)?,
        })
    }

    /// Counts an event.
    pub fn count(&mut self, event: &[u8])
        ensures counts { self.new ≡ counts_then self.old event.now }
        ensures different { HasDifferentRows self.old }
    {
        self.counts.count(event);
    }

    /// Passes the report on to a log, as one piece.
    ///
    /// # Errors
    ///
    /// Those of the log.
    pub fn pass<L: Sink>(&mut self, log: &mut Passing<'_, L>) -> Result<(), SinkErr>
        ensures counts { self.new ≡ self.old }
        ensures same_log { log.new.log.ghost_name ≡ log.old.log.ghost_name }
        ensures taken { PassesOn log.old.failed log.new.failed
            (L.taken log.old.log.now) (L.taken log.new.log.now) (report_of self.old ∷ []) }
        ensures first { log.new.failed ≡ first_failure log.old.failed result }
        ensures failed { result ≡ Err SinkErr.Failed
            → Rose (L.faults log.old.log.now) (L.faults log.new.log.now)
            × (L.faults log.new.log.now ≤ L.most log.new.log.now) }
        ensures later { L.faults log.old.log.now ≤ L.faults log.new.log.now }
        ensures most { L.most log.new.log.now ≡ L.most log.old.log.now }
        ensures within { L.most log.new.log.now < L.faults log.new.log.now
            → L.faults log.new.log.now ≡ L.faults log.old.log.now }
    {
        self.room.clear();
        self.counts.put_report(&mut self.room);
        log.pass(self.room.as_slice())
    }
}
