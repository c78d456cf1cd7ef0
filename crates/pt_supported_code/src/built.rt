//! The first block that isn't supported.

ghost use Rattle.std.specs.Prelude.{IfOk, MatchOption};
ghost use Rattle.pt_supported_code.specs.Built.{BuiltCode, IsUnbuiltCode};
ghost use Rattle.pt_code.specs.File.{HasFile};

use crate::blocks::is_built;
use pt_base::{Line, Memory};
use pt_code::Code;
use pt_standing::ids_of;
use std::alloc::Global;

/// The first line of the first block of a code that isn't supported yet, `None` where each is. For
/// a code file of n bytes it takes time O(n log n), and O(n) memory.
///
/// # Errors
///
/// `Memory` for want of it.
pub fn unbuilt(alloc: Global, code: &Code) -> Result<Option<Line>, Memory>
    requires { HasFile code.now }
    ensures { IfOk result (λ found.
        MatchOption found (BuiltCode code.now) (IsUnbuiltCode code.now)) }
{
    let ids = ids_of(alloc, code.texts.as_slice())?;
    for block in code.blocks.as_slice() {
        if !is_built(alloc, code, &ids, block)? {
            return Ok(Some(block.first_line));
        }
    }
    Ok(None)
}
