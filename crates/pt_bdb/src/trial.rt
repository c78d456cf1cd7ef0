//! The turn of a breakpoint at a line.
ghost use Rattle.std.specs.Prelude.{◌≡◌, true, Some, None, OnOk, OnErr, IfOk, if◌then◌else◌};
ghost use Rattle.pt_bdb.specs.Effective.{crossed_by, goes_by, hit_of, is_tried, passed, stops};
ghost use Rattle.pt_bdb.specs.Effective.{stops_by, verdict_on, with_hit};

use crate::{BreakRow, Breakpoint, Hit, Judge, Verdict};
use pt_base::{Line, Memory, Text};

/// The verdict on a condition. One that isn't there holds.
fn verdict_on<J: Judge>(condition: &Option<Text>, judge: &mut J) -> Result<Verdict, Memory>
    ensures verdict { IfOk result (λ v.
        v ≡ verdict_on (J.verdict (J.held judge.old)) condition.now) }
    ensures kept { J.held judge.new ≡ J.held judge.old }
{
    match condition {
        Some(condition) => judge.judge(condition),
        None => Ok(Verdict::True),
    }
}

/// Whether a temporary breakpoint that stops by a verdict goes.
fn goes_by(verdict: Verdict, temporary: bool) -> bool
    ensures { result ≡ goes_by verdict temporary }
{
    match verdict {
        Verdict::True => temporary,
        _ => false,
    }
}

impl BreakRow {
    /// A crossing at which the condition got this verdict: whether it stops.
    fn cross(&mut self, verdict: Verdict) -> bool
        ensures stops { result ≡ stops_by verdict self.old.ignore }
        ensures row { self.new ≡ crossed_by verdict self.old }
    {
        match verdict {
            Verdict::True => {
                let stops = self.ignore == 0;
                self.ignore = self.ignore.saturating_sub(1);
                stops
            }
            Verdict::False => false,
            Verdict::Broken => true,
        }
    }
}

impl Breakpoint {
    fn is_tried(&self, line: Line) -> bool
        ensures { result ≡ is_tried line self.now }
    {
        self.row.enabled && self.row.line == line
    }

    /// Its turn at a line: the stop, if it stops.
    pub fn turn<J: Judge>(&mut self, line: Line, judge: &mut J) -> Result<Option<Hit>, Memory>
        ensures kept { J.held judge.new ≡ J.held judge.old }
        ensures hit { let judgment = J.verdict (J.held judge.old) in IfOk result (λ hit. hit
            ≡ (if stops judgment line self.old then Some (hit_of judgment self.old) else None)) }
        ensures row { OnOk result
            (self.new ≡ passed (J.verdict (J.held judge.old)) line self.old) }
        ensures tried { OnErr result (is_tried line self.old ≡ true) }
        ensures err { OnErr result (self.new ≡ record self.old { row = with_hit self.old.row }) }
    {
        if !self.is_tried(line) {
            return Ok(None);
        }
        self.row.hits = self.row.hits.saturating_add(1);
        let verdict = verdict_on(&self.row.condition, judge)?;
        if !self.row.cross(verdict) {
            return Ok(None);
        }
        Ok(Some(Hit {
            number: self.number,
            removed: goes_by(verdict, self.row.temporary),
        }))
    }
}
