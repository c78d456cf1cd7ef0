ghost use Rattle.std.specs.Prelude.{◌≡◌, ◌≤◌, ◌<◌, ◌+◌, ◌-◌, ◌^◌, ◌↔◌, length, IsTrue, Contains};
ghost use Rattle.pt_base.specs.Calls.{faults_among};
ghost use Rattle.pt_base.specs.Faults.{Rose};

use crate::Seq;

/// The calls that were made on an object in memory, and the numbers of those that are to fail.
#[derive(Debug, Drop)]
pub struct Calls {
    pub fails: Seq<u64>,
    pub made: u64,
}

/// Counts one more call, and answers whether it is to fail. The count stands still at the
/// greatest u64.
pub fn next(calls: &mut Calls) -> bool
    ensures later { faults_among calls.old.fails calls.old.made ≤ faults_among calls.new.fails calls.new.made }
    ensures rose { IsTrue result → Rose (faults_among calls.old.fails calls.old.made) (faults_among calls.new.fails calls.new.made) }
    ensures counted { faults_among calls.new.fails calls.new.made ≤ length calls.new.fails }
    ensures exact { calls.old.made < 2 ^ 64 - 1 → (IsTrue result ↔ Contains calls.old.fails (calls.old.made + 1)) }
    ensures made { calls.old.made < 2 ^ 64 - 1 → calls.new.made ≡ calls.old.made + 1 }
    ensures fails { calls.new.fails ≡ calls.old.fails }
{
    if calls.made == u64::MAX {
        return false;
    }
    calls.made += 1;
    calls.fails.as_slice().contains(&calls.made)
}
