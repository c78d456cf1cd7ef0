//! Who judges the conditions of breakpoints.
ghost use Rattle.std.specs.Prelude.{◌≡◌, IfOk};

use pt_base::{Memory, Text};

/// What is found of a condition.
#[derive(Clone, Copy, Debug, PartialEq, Eq)]
pub enum Verdict {
    True,
    False,
    /// It raises, is refused, or is no expression.
    Broken,
}

/// Judges conditions by what it holds.
pub trait Judge {
    ghost use Rattle.std.specs.Prelude.{List, ℕ};
    ghost use Rattle.pt_bdb.specs.declared.judge.Verdict.{Verdict};

    ghost Held: { Type 0 };

    ghost held: { Self → Held };

    ghost verdict: { Held → List ℕ → Verdict };

    /// The verdict on a condition. What it holds stays the same, at every answer.
    ///
    /// # Errors
    ///
    /// `Memory` for want of it.
    fn judge(&mut self, condition: &Text) -> Result<Verdict, Memory>
        ensures verdict { IfOk result (λ v. v ≡ verdict (held self.old) condition.now) }
        ensures kept { held self.new ≡ held self.old };
}
