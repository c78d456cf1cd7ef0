//! Code as what runs it sees it.
ghost use Rattle.std.specs.Prelude.{◌≡◌, ℕ, Option};
ghost use Rattle.pt_code.specs.declared.CodeBlock.{CodeBlock};
ghost use Rattle.pt_code.specs.View.{Ins, IsView};

/// No block has two views.
pub fn one_view()
    ensures { (b : CodeBlock) (v w : ℕ → Option Ins) → IsView b v → IsView b w → v ≡ w }
{}
