//! The lines of commands, as they are written.
ghost use Rattle.std.specs.Prelude.{◌≡◌, ◌++◌, OnOk};
ghost use Rattle.pt_pdb.specs.CommandLines.{prompt_text, shown_line};

use pt_base::Memory;
use std::str;

/// A line as it is written: one that isn't UTF-8 as `?`, which is no command.
pub fn shown_line(line: &[u8]) -> &str
    ensures { result.now ≡ shown_line line.now }
{
    match str::from_utf8(line) {
        Ok(text) => text,
        Err(_) => "?",
    }
}

/// Writes the prompt with a line behind it.
///
/// # Errors
///
/// `Memory` for want of it.
pub fn push_prompt(out: &mut Vec<u8>, line: &str) -> Result<(), Memory>
    ensures { OnOk result (out.new.items ≡ out.old.items ++ prompt_text line.now) }
{
    out.extend_from_slice(b"(Pdb) ")?;
    out.extend_from_slice(line.as_bytes())?;
    out.extend_from_slice(b"\n")?;
    Ok(())
}
