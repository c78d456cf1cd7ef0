ghost use Rattle.std.specs.Prelude.{◌≡◌, ◌≤◌, ◌<◌, ◌∷◌, [], true, false, None, Err, IfOk};
ghost use Rattle.pt_base.specs.Faults.{Rose};
ghost use Rattle.pt_cover.specs.Fixed.{faults_within, fixed};
ghost use Rattle.pt_cover.specs.HasTaken.{HasTaken, counts_of};
ghost use Rattle.pt_cover.specs.Kept.{HasDifferentRows, counts_then, report_of};
ghost use Rattle.pt_cover.specs.Passed.{Passed, PassesOn, first_failure};
ghost use Rattle.pt_cover.specs.Reports.{if_asked};
ghost use Rattle.pt_cover.specs.Since.{TookSince, key_of};

use crate::kind::ReportKind;
use crate::passing::Passing;
use crate::pieces::is_totals;
use crate::reporter::Reporter;
use pt_base::{Line, Memory, Sink, SinkErr, Text};
use std::alloc::Global;

/// A log that counts the events of a run and, at the totals of the run, writes a report of them to
/// another log.
pub struct CountLog<'a, L: Sink> {
    log: Passing<'a, L>,
    report: Reporter,
    events: bool,
    totals: bool,
    is_over: bool,
}

impl<L: Sink> Drop for CountLog<'_, L> {
    fn drop(self) {
        let CountLog {
            log: _,
            report: _,
            events: _,
            totals: _,
            is_over: _,
        } = self;
    }
}

impl<'a, L: Sink> CountLog<'a, L> {
    /// A log over another one, for a report of these lines or of these names. It takes all its room
    /// here. Events and totals are passed on where they are asked for.
    pub fn new(
        alloc: Global,
        log: &'a mut L,
        lines: &[Line],
        names: &[Text],
        kind: ReportKind,
        events: bool,
        stats: bool,
    ) -> Result<CountLog<'a, L>, Memory>
        ensures same_log { IfOk result (λ c. c.log.log.ghost_name ≡ log.entry.ghost_name) }
        ensures log { IfOk result (λ c. c.log.log.now ≡ log.old) }
        ensures failed { IfOk result (λ c. c.log.failed ≡ None) }
        ensures counts { IfOk result (λ c. c.report ≡ counts_of kind lines.now names.now) }
        ensures events { IfOk result (λ c. c.events ≡ events) }
        ensures totals { IfOk result (λ c. c.totals ≡ stats) }
        ensures over { IfOk result (λ c. c.is_over ≡ false) }
    {
        let report = Reporter::of(alloc, kind, lines, names)?;
        Ok(CountLog::over(log, report, events, stats))
    }

    /// A log over another one, for the report of a reporter that has counted nothing.
    pub fn over(log: &'a mut L, report: Reporter, events: bool, stats: bool) -> CountLog<'a, L>
        ensures same_log { result.log.log.ghost_name ≡ log.entry.ghost_name }
        ensures log { result.log.log.now ≡ log.old }
        ensures failed { result.log.failed ≡ None }
        ensures counts { result.report ≡ report }
        ensures events { result.events ≡ events }
        ensures totals { result.totals ≡ stats }
        ensures over { result.is_over ≡ false }
    {
        CountLog {
            log: Passing::new(log),
            report,
            events,
            totals: stats,
            is_over: false,
        }
    }

    /// The log below.
    pub fn into_log(self) -> &'a mut L
        ensures same_log { result.ghost_name ≡ self.entry.log.log.ghost_name }
        ensures log { result.now ≡ self.entry.log.log.now }
    {
        let CountLog {
            log,
            report: _,
            events: _,
            totals: _,
            is_over: _,
        } = self;
        log.into_log()
    }

    /// The first answer of `write` that wasn't Ok.
    pub fn failed(&self) -> Option<SinkErr>
        ensures { result ≡ self.now.log.failed }
    {
        self.log.failed()
    }

    /// Passes the report on, and the totals where they are asked for.
    fn close(&mut self, totals: &[u8]) -> Result<(), SinkErr>
        ensures report { self.new.report ≡ self.old.report }
        ensures events { self.new.events ≡ self.old.events }
        ensures totals { self.new.totals ≡ self.old.totals }
        ensures over { self.new.is_over ≡ true }
        ensures same_log { self.new.log.log.ghost_name ≡ self.old.log.log.ghost_name }
        ensures taken { PassesOn self.old.log.failed self.new.log.failed
            (L.taken self.old.log.log.now) (L.taken self.new.log.log.now)
            (report_of self.old.report ∷ if_asked self.old.totals (totals.now ∷ [])) }
        ensures first { self.new.log.failed ≡ first_failure self.old.log.failed result }
        ensures failed { result ≡ Err SinkErr.Failed
            → Rose (L.faults self.old.log.log.now) (L.faults self.new.log.log.now)
            × (L.faults self.new.log.log.now ≤ L.most self.new.log.log.now) }
        ensures later { L.faults self.old.log.log.now ≤ L.faults self.new.log.log.now }
        ensures most { L.most self.new.log.log.now ≡ L.most self.old.log.log.now }
        ensures within { L.most self.new.log.log.now < L.faults self.new.log.log.now
            → L.faults self.new.log.log.now ≡ L.faults self.old.log.log.now }
    {
        self.is_over = true;
        self.report.pass(&mut self.log)?;
        if self.totals {
            self.log.pass(totals)
        } else {
            Ok(())
        }
    }

    /// Counts an event, and passes it on where events are asked for.
    fn count(&mut self, event: &[u8]) -> Result<(), SinkErr>
        ensures report { self.new.report ≡ counts_then self.old.report event.now }
        ensures different { HasDifferentRows self.old.report }
        ensures events { self.new.events ≡ self.old.events }
        ensures totals { self.new.totals ≡ self.old.totals }
        ensures over { self.new.is_over ≡ self.old.is_over }
        ensures same_log { self.new.log.log.ghost_name ≡ self.old.log.log.ghost_name }
        ensures taken { PassesOn self.old.log.failed self.new.log.failed
            (L.taken self.old.log.log.now) (L.taken self.new.log.log.now)
            (if_asked self.old.events (event.now ∷ [])) }
        ensures first { self.new.log.failed ≡ first_failure self.old.log.failed result }
        ensures failed { result ≡ Err SinkErr.Failed
            → Rose (L.faults self.old.log.log.now) (L.faults self.new.log.log.now)
            × (L.faults self.new.log.log.now ≤ L.most self.new.log.log.now) }
        ensures later { L.faults self.old.log.log.now ≤ L.faults self.new.log.log.now }
        ensures most { L.most self.new.log.log.now ≡ L.most self.old.log.log.now }
        ensures within { L.most self.new.log.log.now < L.faults self.new.log.log.now
            → L.faults self.new.log.log.now ≡ L.faults self.old.log.log.now }
    {
        self.report.count(event);
        if self.events {
            self.log.pass(event)
        } else {
            Ok(())
        }
    }
}

// What a caller who writes to any sink is to know of this one afterwards, the sink tells: the pieces
// behind which it takes tell where it began and what it reports, and `most` which log is below.
impl<L: Sink> Sink for CountLog<'_, L> {
    ghost taken = { λ s g h. HasTaken s.report s.is_over s.events s.totals
        (Passed s.log.failed (TookSince (key_of s.report s.events s.totals)
        (L.taken s.log.log.now) g)) h };

    ghost faults = { λ s. faults_within (L.faults s.log.log.now) (L.most s.log.log.now) };

    ghost most = { λ s. fixed s.log.log.ghost_name (L.faults s.log.log.now)
        (L.most s.log.log.now) };

    fn write(&mut self, piece: &[u8]) -> Result<(), SinkErr> {
        if self.is_over {
            self.log.pass(piece)
        } else if is_totals(piece) {
            self.close(piece)
        } else {
            self.count(piece)
        }
    }
}
