ghost use Rattle.std.specs.Prelude.{◌≡◌};

use pt_base::Memory;

/// Why a reader stopped before the end of what it reads.
#[derive(Clone, Copy, Debug, PartialEq, Eq)]
pub enum Halt {
    /// With the next token nothing goes on.
    Unexpected,
    /// With the next token something goes on beyond the limits alone.
    Limit,
    /// Memory ran out.
    Memory,
}

impl From<Memory> for Halt {
    ghost use Rattle.pt_readers.specs.declared.halt.Halt.TheVariants as halt;

    ghost from_gives = { λ _ e. e ≡ halt.Memory };

    fn from(_: Memory) -> Self {
        Halt::Memory
    }
}
