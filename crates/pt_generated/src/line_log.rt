ghost use Rattle.std.specs.Prelude.{◌≡◌, ◌≤◌, ◌∷◌, [], Err, OnErr, OnOk};
ghost use Rattle.pt_base.specs.Faults.{Rose};
ghost use Rattle.pt_base.specs.Taken.{Takes, TakesFront};
ghost use Rattle.pt_generated.specs.Lines.{HasTakenLines, counted_then, told_faults, unchanged};

use pt_base::{Sink, SinkErr};
use pt_cover::begins_line;

/// A log that counts the lines that a run begins, by the events that it is given. It passes them on
/// to another log where they are asked for.
pub struct LineLog<'a, L: Sink> {
    log: &'a mut L,
    events: bool,
    lines: u64,
}

impl<L: Sink> Drop for LineLog<'_, L> {
    fn drop(self) {
        let LineLog {
            log: _,
            events: _,
            lines: _,
        } = self;
    }
}

/// The count of lines behind a piece more.
fn counted(lines: u64, piece: &[u8]) -> u64
    ensures { result ≡ counted_then lines piece.now }
{
    if begins_line(piece) {
        lines.saturating_add(1)
    } else {
        lines
    }
}

impl<'a, L: Sink> LineLog<'a, L> {
    /// A log over another one, before any event.
    pub fn over(log: &'a mut L, events: bool) -> LineLog<'a, L>
        ensures same_log { result.log.ghost_name ≡ log.entry.ghost_name }
        ensures log { result.log.now ≡ log.old }
        ensures events { result.events ≡ events }
        ensures lines { result.lines ≡ 0 }
    {
        LineLog {
            log,
            events,
            lines: 0,
        }
    }

    /// The log below.
    pub fn into_log(self) -> &'a mut L
        ensures same_log { result.ghost_name ≡ self.entry.log.ghost_name }
        ensures log { result.now ≡ self.entry.log.now }
    {
        let LineLog {
            log,
            events: _,
            lines: _,
        } = self;
        log
    }

    /// How many lines were begun, where every piece was taken. The count stands still at the
    /// greatest u64.
    pub fn lines(&self) -> u64
        ensures { result ≡ self.now.lines }
    {
        self.lines
    }
}

// What a caller who writes to any sink is to know of this one afterwards, the sink tells: behind
// nothing the count, behind a start what the log below has taken, and by `most` which log that is.
impl<L: Sink> Sink for LineLog<'_, L> {
    ghost taken = { λ s g h. HasTakenLines s.lines s.events (L.taken s.log.now) g h };

    ghost faults = { λ s. told_faults s.events (L.faults s.log.now) (L.most s.log.now) };

    ghost most = { λ s. unchanged s.events s.log.ghost_name (L.faults s.log.now)
        (L.most s.log.now) };

    fn write(&mut self, piece: &[u8]) -> Result<(), SinkErr> {
        if !self.events {
            self.lines = counted(self.lines, piece);
            return Ok(());
        }
        match self.log.write(piece) {
            Ok(()) => {
                self.lines = counted(self.lines, piece);
                Ok(())
            }
            Err(error) => Err(error),
        }
    }
}
