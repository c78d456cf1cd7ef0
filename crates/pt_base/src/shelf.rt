ghost use Rattle.std.specs.Prelude.{◌≡◌, ◌≤◌, ◌⊎◌, List, ℕ, length, Err, IfOk};
ghost use Rattle.std.specs.Option.{option_copied};
ghost use Rattle.pt_base.specs.Calls.{faults_among};
ghost use Rattle.pt_base.specs.Faults.{Rose};
ghost use Rattle.pt_base.specs.Told.{Told, IsWhole, IsLacked, IsLonger, told_in, Gives};

use crate::calls::{self, Calls};
use crate::{Seq, Text};
use std::alloc::Global;
use std::marker::Model;

/// Why a text was not read.
#[derive(Clone, Copy, Debug, PartialEq, Eq)]
pub enum ShelfErr {
    /// It could not be read: the count of faults rose, or nothing stands under the name.
    Failed,
    /// It has more bytes than were asked for.
    TooLong,
    Memory,
}

/// Texts under names. What stands outside the program is met through this trait alone.
pub trait Shelf {
    /// What it tells of the text under a name.
    ghost told: { Self → List ℕ → Told };

    /// How often it has failed. A count that stands at the greatest u64 counts as having risen.
    ghost faults: { Self → ℕ };

    /// How often it can fail at most.
    ghost most: { Self → ℕ };

    /// The whole text under a name, of at most `max` bytes. What the shelf holds and tells stays
    /// as it was, at every answer.
    fn read(&mut self, alloc: Global, name: &str, max: u64) -> Result<Vec<u8>, ShelfErr>
        ensures kept { told self.new ≡ told self.old }
        ensures whole { IfOk result (λ v. IsWhole (told self.old name.now) v.items) }
        ensures within { IfOk result (λ v. length v.items ≤ max) }
        ensures long { result ≡ Err ShelfErr.TooLong → IsLonger (told self.old name.now) max }
        ensures failed { result ≡ Err ShelfErr.Failed → Rose (faults self.old) (faults self.new) ⊎ IsLacked (told self.old name.now) }
        ensures later { faults self.old ≤ faults self.new }
        ensures most { most self.new ≡ most self.old }
        ensures counted { faults self.new ≤ most self.new };
}

/// Texts in memory, which it tells. The calls of `read` are numbered from 1, and those that are
/// listed fail.
#[derive(Debug, Drop)]
pub struct MemShelf {
    files: Seq<(Text, Seq<u8>)>,
    calls: Calls,
}

impl Model for MemShelf {
    ghost use Rattle.pt_base.specs.InMemory.{Files};

    ghost Value = { Files };

    ghost view = { λ s. record { files = s.files; fails = s.calls.fails; made = s.calls.made } };
}

impl MemShelf {
    /// A shelf of these texts, each behind its name; of two with one name the first counts.
    /// `fails` has the numbers of the calls that are to fail.
    pub fn new(files: Seq<(Text, Seq<u8>)>, fails: Seq<u64>) -> MemShelf
        ensures files { result.files ≡ files }
        ensures fails { result.fails ≡ fails }
        ensures made { result.made ≡ 0 }
    {
        MemShelf {
            files,
            calls: Calls { fails, made: 0 },
        }
    }
}

/// The bytes of the first text with this name.
fn find<'a>(files: &'a [(Text, Seq<u8>)], name: &str) -> Option<&'a [u8]>
    ensures { Gives (option_copied result) (told_in files.now name.now) }
{
    for file in files {
        if file.0.is(name) {
            return Some(file.1.as_slice());
        }
    }
    None
}

impl Shelf for MemShelf {
    ghost told = { λ s name. told_in s.files name };

    ghost faults = { λ s. faults_among s.fails s.made };

    ghost most = { λ s. length s.fails };

    fn read(&mut self, alloc: Global, name: &str, max: u64) -> Result<Vec<u8>, ShelfErr> {
        if calls::next(&mut self.calls) {
            return Err(ShelfErr::Failed);
        }
        let Some(bytes) = find(self.files.as_slice(), name) else {
            return Err(ShelfErr::Failed);
        };
        if bytes.len() as u64 > max {
            return Err(ShelfErr::TooLong);
        }
        match Vec::from_slice(alloc, bytes) {
            Ok(copy) => Ok(copy),
            Err(_) => Err(ShelfErr::Memory),
        }
    }
}
