use pt_base::Memory as OutOfMemory;

/// Why a part of a wide tree is no part of the language.
#[derive(Clone, Copy, Debug, PartialEq, Eq)]
pub enum Unnarrowed {
    /// The language leaves out a node of it.
    LeftOut,
    Memory,
}

impl From<OutOfMemory> for Unnarrowed {
    ghost use Rattle.std.specs.Prelude.{◌≡◌};
    ghost use Rattle.pt_refine_expr.specs.declared.unnarrowed.Unnarrowed.TheVariants.{Memory};

    ghost from_gives = { λ _ e. e ≡ Memory };

    fn from(_: OutOfMemory) -> Self {
        Unnarrowed::Memory
    }
}
