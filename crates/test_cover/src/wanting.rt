ghost use Rattle.std.specs.Prelude.{◌≡◌, ◌++◌, length, []};
ghost use Rattle.pt_base.specs.Calls.{faults_among};

use pt_base::{MemSink, Seq, Sink, SinkErr};
use std::alloc::Global;

/// A log in memory. Its calls are numbered from 1: those of some numbers fail, and those of others
/// answer that memory ran out. They take nothing.
#[derive(Debug, Drop)]
pub struct Wanting {
    log: MemSink,
    wants: Seq<u64>,
    made: u64,
}

impl Wanting {
    /// A log that has taken nothing.
    pub fn new(alloc: Global, fails: Seq<u64>, wants: Seq<u64>) -> Wanting {
        Wanting {
            log: MemSink::new(alloc, fails),
            wants,
            made: 0,
        }
    }

    /// What it has taken.
    pub fn pieces(&self) -> &[Seq<u8>] {
        self.log.pieces()
    }
}

impl Sink for Wanting {
    ghost taken = { λ s g h. s.log.pieces ≡ g ++ h };

    ghost faults = { λ s. faults_among s.log.fails s.log.made };

    ghost most = { λ s. length s.log.fails };

    fn write(&mut self, piece: &[u8]) -> Result<(), SinkErr> {
        self.made = self.made.saturating_add(1);
        if self.wants.as_slice().contains(&self.made) {
            return Err(SinkErr::Memory);
        }
        self.log.write(piece)
    }
}
