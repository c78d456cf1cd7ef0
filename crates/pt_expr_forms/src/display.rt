//! Displays of sequences and sets (Language Reference 6.2.5, 6.2.6, 6.15).

ghost use Rattle.std.specs.Prelude.{◌≡◌};
ghost use Rattle.pt_expr_forms.specs.Behind.{display_instr};

use pt_instr::Instr;

/// What the items of a display are put into.
#[derive(Clone, Copy, Debug, PartialEq, Eq)]
pub enum Display {
    Tuple,
    List,
    Set,
}

impl Display {
    /// Puts so many items into it.
    pub fn instr(self, count: u32) -> Instr
        ensures { result ≡ display_instr self count }
    {
        match self {
            Display::Tuple => Instr::Tuple(count),
            Display::List => Instr::List(count),
            Display::Set => Instr::Set(count),
        }
    }
}
