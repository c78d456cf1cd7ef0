ghost use Rattle.std.specs.Prelude.{◌≡◌, ◌≤◌, List, ℕ, [], ◌∷◌, ◌++◌, length, Err, OnOk, OnErr};
ghost use Rattle.pt_base.specs.Calls.{faults_among};
ghost use Rattle.pt_base.specs.Faults.{Rose};
ghost use Rattle.pt_base.specs.Taken.{Takes, TakesFront};
ghost use Rattle.pt_base.specs.declared.sink.SinkErr.TheVariants.{Memory as out_of_memory};

use crate::calls::{self, Calls};
use crate::{Memory, Seq};
use std::alloc::Global;
use std::marker::Model;

/// Why a piece was not taken whole.
#[derive(Clone, Copy, Debug, PartialEq, Eq)]
pub enum SinkErr {
    /// The count of faults rose.
    Failed,
    Memory,
}

impl From<Memory> for SinkErr {
    ghost from_gives = { λ _ e. e ≡ out_of_memory };

    fn from(_: Memory) -> Self {
        SinkErr::Memory
    }
}

/// Takes pieces of bytes, one behind the other.
pub trait Sink {
    /// Whether it has taken, behind the first pieces, the second. A sink that doesn't tell never
    /// has.
    ghost taken: { Self → List (List ℕ) → List (List ℕ) → Type 0 };

    /// How often it has failed. A count that stands at the greatest u64 counts as having risen.
    ghost faults: { Self → ℕ };

    /// How often it can fail at most.
    ghost most: { Self → ℕ };

    /// Takes the piece whole, or answers with an error and has taken a part of it or nothing.
    fn write(&mut self, piece: &[u8]) -> Result<(), SinkErr>
        ensures ok { OnOk result (Takes (taken self.old) (taken self.new) (piece.now ∷ [])) }
        ensures err { OnErr result (TakesFront (taken self.old) (taken self.new) (piece.now ∷ [])) }
        ensures failed { result ≡ Err SinkErr.Failed → Rose (faults self.old) (faults self.new) }
        ensures later { faults self.old ≤ faults self.new }
        ensures most { most self.new ≡ most self.old }
        ensures counted { faults self.new ≤ most self.new };
}

/// Pieces in memory, which it tells. The calls of `write` are numbered from 1, and those that are
/// listed fail and take nothing.
#[derive(Debug, Drop)]
pub struct MemSink {
    alloc: Global,
    pieces: Seq<Seq<u8>>,
    calls: Calls,
}

impl Model for MemSink {
    ghost use Rattle.pt_base.specs.InMemory.{Pieces};

    ghost Value = { Pieces };

    ghost view = { λ s. record { pieces = s.pieces; fails = s.calls.fails; made = s.calls.made } };
}

impl MemSink {
    /// A sink that has taken nothing. `fails` has the numbers of the calls that are to fail.
    pub fn new(alloc: Global, fails: Seq<u64>) -> MemSink
        ensures pieces { result.pieces ≡ [] }
        ensures fails { result.fails ≡ fails }
        ensures made { result.made ≡ 0 }
    {
        MemSink {
            alloc,
            pieces: Seq::new(alloc),
            calls: Calls { fails, made: 0 },
        }
    }

    /// What it has taken.
    pub fn pieces(&self) -> &[Seq<u8>]
        ensures { result.now ≡ self.now.pieces }
    {
        self.pieces.as_slice()
    }
}

impl Sink for MemSink {
    ghost taken = { λ s g h. s.pieces ≡ g ++ h };

    ghost faults = { λ s. faults_among s.fails s.made };

    ghost most = { λ s. length s.fails };

    fn write(&mut self, piece: &[u8]) -> Result<(), SinkErr> {
        if calls::next(&mut self.calls) {
            return Err(SinkErr::Failed);
        }
        let copy = Seq::from_slice(self.alloc, piece)?;
        self.pieces.push(copy)?;
        Ok(())
    }
}
