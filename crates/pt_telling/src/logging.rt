//! The log has a line for each event of the four kinds of `sys.settrace`.
ghost use Rattle.std.specs.Prelude.{◌≡◌, ◌∷◌, IfOk, OnOk};
ghost use Rattle.pt_content.specs.Classes.{class_name};
ghost use Rattle.pt_tracing.specs.pt_machine_state.Writing.{Adds};
ghost use Rattle.pt_telling.specs.Asks.{event_lines};

use pt_base::{Memory, Text};
use pt_content::class_name;
use pt_happenings::{Event, Happening};
use pt_heap::{Heap, Value};
use pt_tracing::{BlockCode, Writes, put_line};
use std::alloc::Global;

/// What is told behind the name of a block of an exception.
fn class_behind(alloc: Global, heap: &Heap, exception: Value) -> Result<Text, Memory>
    ensures { IfOk result (λ text. text ≡ 32 ∷ class_name heap.now exception) }
{
    let mut behind = Text::from_str(alloc, " ")?;
    behind.push_str(class_name(heap, exception))?;
    Ok(behind)
}

/// Writes the lines of an event, where events have lines.
///
/// # Errors
///
/// `Memory` for want of it.
#[tactic(auto, using(crate::proofs::Entries::adds_nothing))]
pub fn log_event(
    heap: &Heap,
    block: &BlockCode,
    event: &Event,
    writes: &mut Writes,
) -> Result<(), Memory>
    ensures { OnOk result (Adds writes.old writes.new
        (event_lines block.now event.now heap.now)) }
{
    let name = block.name.as_str();
    match event.what {
        Happening::Starts | Happening::Resumes | Happening::Throws(_) => {
            put_line(writes, "call", event.line, name, "")
        }
        Happening::Line { .. } => put_line(writes, "line", event.line, name, ""),
        Happening::Returns(_) | Happening::Yields(_) | Happening::Unwinds(_) => {
            put_line(writes, "return", event.line, name, "")
        }
        Happening::Raises(exception) => {
            let behind = class_behind(writes.alloc, heap, exception)?;
            put_line(writes, "exception", event.line, name, behind.as_str())
        }
        Happening::Calls { .. }
        | Happening::ReturnsFrom { .. }
        | Happening::RaisesFrom { .. }
        | Happening::Jumps { .. }
        | Happening::Branches { .. }
        | Happening::RaisesAgain(_)
        | Happening::Handled(_)
        | Happening::Stops(_) => Ok(()),
    }
}
