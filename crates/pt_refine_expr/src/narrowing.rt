use pt_base::{Line, Memory as OutOfMemory};

/// Why a tree of the wide grammar is no tree of the language.
#[derive(Clone, Copy, Debug, PartialEq, Eq)]
pub enum Narrowing {
    /// What stands in a target's place can't stand there (Language Reference 7.2).
    BadTarget { line: Line },
    /// A form that is left out of the language.
    Excluded { line: Line },
    Memory,
}

impl From<OutOfMemory> for Narrowing {
    ghost use Rattle.std.specs.Prelude.{◌≡◌};
    ghost use Rattle.pt_refine_expr.specs.declared.narrowing.Narrowing.TheVariants.{Memory};

    ghost from_gives = { λ _ e. e ≡ Memory };

    fn from(_: OutOfMemory) -> Self {
        Narrowing::Memory
    }
}
