//! The parameters of a frame.
ghost use Rattle.std.specs.Prelude.{◌≡◌, ◌++◌, OnOk};
ghost use Rattle.pt_pdb.specs.Arguments.{argument_text, arguments_text, is_bound};

use pt_base::{Memory, Text};
use pt_heap::{Binding, ViewFrame};

/// Answers names in a frame, by what it holds.
pub trait Names {
    ghost use Rattle.std.specs.Prelude.{◌≡◌, IfOk, List, ℕ};

    ghost Held: { Type 0 };

    ghost held: { Self → Held };

    ghost answer: { Held → List ℕ → List ℕ };

    /// What `p` answers to a name. What it holds stays the same, at every answer.
    ///
    /// # Errors
    ///
    /// `Memory` for want of it.
    fn answer(&mut self, name: &Text) -> Result<Text, Memory>
        ensures text { IfOk result (λ t. t ≡ answer (held self.old) name.now) }
        ensures kept { held self.new ≡ held self.old };
}

/// Whether a name has a value.
fn is_bound(name: &Text, locals: &[Binding]) -> bool
    ensures { result ≡ is_bound name.now locals.now }
{
    for binding in locals {
        if binding.name.is(name.as_str()) {
            return true;
        }
    }
    false
}

/// Writes a parameter, if it has a value.
fn push_argument<N: Names>(
    out: &mut Vec<u8>,
    names: &mut N,
    name: &Text,
    locals: &[Binding],
) -> Result<(), Memory>
    ensures text { OnOk result (out.new.items ≡ out.old.items
        ++ argument_text (N.answer (N.held names.old)) locals.now name.now) }
    ensures kept { N.held names.new ≡ N.held names.old }
{
    if !is_bound(name, locals) {
        return Ok(());
    }
    let answer = names.answer(name)?;
    out.extend_from_slice(name.as_str().as_bytes())?;
    out.extend_from_slice(b" = ")?;
    out.extend_from_slice(answer.as_str().as_bytes())?;
    out.extend_from_slice(b"\n")?;
    Ok(())
}

/// Writes the parameters of a frame that have values, each with what `p` answers to its name.
///
/// # Errors
///
/// `Memory` for want of it.
pub fn push_arguments<N: Names>(
    out: &mut Vec<u8>,
    names: &mut N,
    frame: &ViewFrame,
) -> Result<(), Memory>
    ensures text { OnOk result (out.new.items
        ≡ out.old.items ++ arguments_text (N.answer (N.held names.old)) frame.now) }
    ensures kept { N.held names.new ≡ N.held names.old }
{
    for name in frame.params.as_slice() {
        push_argument(out, names, name, frame.locals.as_slice())?;
    }
    Ok(())
}
