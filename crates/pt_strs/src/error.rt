ghost use Rattle.std.specs.Prelude.{◌≡◌};
ghost use Rattle.pt_strs.specs.declared.error.StrErr.TheVariants.{Memory as out_of_memory};

use pt_base::Memory;

/// Why there is no text.
#[derive(Clone, Copy, Debug, PartialEq, Eq)]
pub enum StrErr {
    /// The text would have more than 16,777,216 characters.
    Length,
    /// The format spec isn't one of the profile.
    Format,
    /// A text was to be split at an empty separator.
    Empty,
    Memory,
}

impl From<Memory> for StrErr {
    ghost from_gives = { λ _ e. e ≡ out_of_memory };

    fn from(_: Memory) -> Self {
        StrErr::Memory
    }
}
