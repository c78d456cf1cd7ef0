//! Pieces that are to be written.
ghost use Rattle.std.specs.Prelude.{◌≡◌, ◌∷◌, [], pos, IfOk, OnOk};
ghost use Rattle.std.specs.Fmt.{signed_decimal};
ghost use Rattle.pt_machine_state.specs.Writing.{Adds, event_line, event_text, print_piece};

use pt_base::{Line, Memory, Text};
use pt_machine_state::{Write, Writes};
use std::alloc::Global;

/// Puts a text that is printed behind the other pieces.
///
/// # Errors
///
/// `Memory` for want of it.
#[tactic(auto, using(crate::proofs::PieceLemmas::printed))]
pub fn print(writes: &mut Writes, text: Text) -> Result<(), Memory>
    ensures { OnOk result (Adds writes.old writes.new (print_piece text ∷ [])) }
{
    writes.items.push(Write::Print(text))?;
    Ok(())
}

/// The log's line of an event.
fn event_text(
    alloc: Global,
    word: &str,
    line: Line,
    name: &str,
    behind: &str,
) -> Result<Text, Memory>
    ensures { IfOk result (λ text. text ≡ event_text word.now line.0 name.now behind.now) }
{
    let number = line.0;
    let text = format!(in alloc; "{word} {number} {name}{behind}\n")?;
    Text::from_str(alloc, text.as_str())
}

/// Puts the log's line of an event behind the other pieces, where events have lines.
///
/// # Errors
///
/// `Memory` for want of it.
#[tactic(auto, using(crate::proofs::PieceLemmas::logged, crate::proofs::PieceLemmas::not_logged))]
pub fn event(
    writes: &mut Writes,
    word: &str,
    line: Line,
    name: &str,
    behind: &str,
) -> Result<(), Memory>
    ensures { OnOk result (Adds writes.old writes.new
        (event_line word.now line.0 name.now behind.now ∷ [])) }
{
    if !writes.events {
        return Ok(());
    }
    let text = event_text(writes.alloc, word, line, name, behind)?;
    writes.items.push(Write::Log(text))?;
    Ok(())
}
