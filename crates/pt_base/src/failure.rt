ghost use Rattle.std.specs.Prelude.{◌≡◌};
ghost use Rattle.pt_base.specs.Failures.{IsSameFailure};

use crate::Memory;

/// Why there is no answer: for a reason, or for want of memory.
#[derive(Debug, Drop)]
pub enum Failure<E> {
    Refused(E),
    Memory,
}

impl<E> From<Memory> for Failure<E> {
    ghost use Rattle.pt_base.specs.declared.failure.Failure.TheVariants as failure;

    ghost from_gives = { λ _ f. f ≡ failure.Memory };

    fn from(_: Memory) -> Self {
        Failure::Memory
    }
}

impl<E> Failure<E> {
    /// The failure with what a function makes of its reason.
    pub fn map_refused<D, F: FnOnce(E) -> D>(self, of: F) -> Failure<D>
        requires { F.IsAlwaysCallable of }
        ensures { IsSameFailure (F.post of) self result }
    {
        match self {
            Failure::Refused(reason) => Failure::Refused(of(reason)),
            Failure::Memory => Failure::Memory,
        }
    }
}
