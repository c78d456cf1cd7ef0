ghost use Rattle.std.specs.Prelude.{◌≡◌, ◌+◌, ◌<◌, ◌↔◌, IsTrue, if◌then◌else◌};

use std::marker::Model;

/// The acts that a run may take, and how many it has taken.
#[derive(Debug, Drop)]
pub struct Budget {
    limit: u64,
    taken: u64,
}

impl Model for Budget {
    ghost use Rattle.std.specs.Prelude.{◌≤◌};
    ghost use Rattle.pt_base.specs.Spending.{Spending};

    ghost Value = { Spending };

    ghost view = { λ b. record { limit = b.limit; taken = b.taken } };

    ghost invariant = { λ b. b.taken ≤ b.limit };
}

impl Budget {
    /// A budget of `n` units, of which none is taken.
    pub fn new(n: u64) -> Budget
        ensures limit { result.limit ≡ n }
        ensures taken { result.taken ≡ 0 }
    {
        Budget { limit: n, taken: 0 }
    }

    /// Takes a unit, or answers false where all are taken.
    pub fn take(&mut self) -> bool
        ensures left { IsTrue result ↔ (self.old.taken < self.old.limit) }
        ensures limit { self.new.limit ≡ self.old.limit }
        ensures taken { self.new.taken ≡ (if result then self.old.taken + 1 else self.old.taken) }
    {
        if self.taken < self.limit {
            self.taken += 1;
            true
        } else {
            false
        }
    }

    /// How many units are taken.
    pub fn taken(&self) -> u64
        ensures { result ≡ self.now.taken }
    {
        self.taken
    }

    /// The same budget once more.
    pub(crate) fn again(&self) -> Budget
        ensures { result ≡ self.now }
    {
        Budget {
            limit: self.limit,
            taken: self.taken,
        }
    }
}
