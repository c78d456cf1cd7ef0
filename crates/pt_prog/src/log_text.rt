//! The texts that the log gets at the end, and that of a summary.

ghost use Rattle.std.specs.Prelude.{◌≡◌, IfOk, option_map, string_bytes};
ghost use Rattle.pt_prog.specs.LogText.{final_text, summary_text, totals_text};

use crate::end::End;
use pt_run_script::Totals;
use std::alloc::{AllocError, Global};

/// The final text of an end, without the newline behind it.
pub fn final_text(alloc: Global, end: &End) -> Result<Option<String>, AllocError>
    ensures { IfOk result (λ text. option_map string_bytes text ≡ final_text end.now) }
{
    let text = match end {
        End::Usage => String::from_str(alloc, "pt: usage")?,
        End::Spent { acts } => format!(in alloc; "pt: spent after {acts} acts")?,
        End::Outside { what, line } => {
            format!(in alloc; "pt: outside the profile: {what} at line {}", line.0)?
        }
        End::Refused { error } => {
            format!(in alloc; "pt: refused {} at {}", error.number(), error.place())?
        }
        End::BadCode { error } => {
            format!(in alloc; "pt: bad code {} at {}", error.number(), error.place())?
        }
        End::TooLong { .. } => String::from_str(alloc, "pt: too long")?,
        End::ReadFault => String::from_str(alloc, "pt: cannot read")?,
        End::Unbuilt { line } => format!(in alloc; "pt: not built at line {}", line.0)?,
        End::Done | End::Exited { .. } | End::Raised | End::WriteFault { .. } | End::Memory =>
            return Ok(None),
    };
    Ok(Some(text))
}

/// The totals of a run.
pub fn totals_text(alloc: Global, totals: &Totals) -> Result<String, AllocError>
    ensures { IfOk result (λ text. string_bytes text
        ≡ totals_text totals.now.acts totals.now.instructions totals.now.depth) }
{
    let Totals {
        acts,
        instructions,
        depth,
    } = totals;
    format!(in alloc; "acts {acts}\ninstructions {instructions}\ndepth {depth}\n")
}

/// The summary of a run that came to its end.
pub fn summary_text(alloc: Global, acts: u64, lines: u64) -> Result<String, AllocError>
    ensures { IfOk result (λ text. string_bytes text ≡ summary_text acts lines) }
{
    format!(in alloc; "acts {acts}\nlines {lines}\nending done\n")
}
