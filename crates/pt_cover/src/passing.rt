ghost use Rattle.std.specs.Prelude.{◌≡◌, ◌≤◌, ◌<◌, ◌∷◌, [], None, Err};
ghost use Rattle.pt_base.specs.Faults.{Rose};
ghost use Rattle.pt_cover.specs.Passed.{PassesOn, first_failure};

use pt_base::{Sink, SinkErr};

/// A log to which nothing is passed on any more once a write of it failed.
pub struct Passing<'a, L: Sink> {
    log: &'a mut L,
    failed: Option<SinkErr>,
}

impl<L: Sink> Drop for Passing<'_, L> {
    fn drop(self) {
        let Passing { log: _, failed: _ } = self;
    }
}

impl<'a, L: Sink> Passing<'a, L> {
    pub fn new(log: &'a mut L) -> Passing<'a, L>
        ensures same_log { result.log.ghost_name ≡ log.entry.ghost_name }
        ensures log { result.log.now ≡ log.old }
        ensures failed { result.failed ≡ None }
    {
        Passing { log, failed: None }
    }

    /// The log.
    pub fn into_log(self) -> &'a mut L
        ensures same_log { result.ghost_name ≡ self.entry.log.ghost_name }
        ensures log { result.now ≡ self.entry.log.now }
    {
        let Passing { log, failed: _ } = self;
        log
    }

    /// The first answer of a write that wasn't Ok.
    pub fn failed(&self) -> Option<SinkErr>
        ensures { result ≡ self.now.failed }
    {
        self.failed
    }

    /// Passes a piece on in one call of the log, or answers Ok where a write failed before.
    ///
    /// # Errors
    ///
    /// Those of the log.
    pub fn pass(&mut self, piece: &[u8]) -> Result<(), SinkErr>
        ensures same_log { self.new.log.ghost_name ≡ self.old.log.ghost_name }
        ensures taken { PassesOn self.old.failed self.new.failed
            (L.taken self.old.log.now) (L.taken self.new.log.now) (piece.now ∷ []) }
        ensures first { self.new.failed ≡ first_failure self.old.failed result }
        ensures failed { result ≡ Err SinkErr.Failed
            → Rose (L.faults self.old.log.now) (L.faults self.new.log.now)
            × (L.faults self.new.log.now ≤ L.most self.new.log.now) }
        ensures later { L.faults self.old.log.now ≤ L.faults self.new.log.now }
        ensures most { L.most self.new.log.now ≡ L.most self.old.log.now }
        ensures within { L.most self.new.log.now < L.faults self.new.log.now
            → L.faults self.new.log.now ≡ L.faults self.old.log.now }
    {
        if self.failed.is_some() {
            return Ok(());
        }
        match self.log.write(piece) {
            Ok(()) => Ok(()),
            Err(error) => {
                self.failed = Some(error);
                Err(error)
            }
        }
    }
}
