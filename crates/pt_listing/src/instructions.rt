ghost use Rattle.std.specs.Prelude.{◌≡◌, List, IfOk};
ghost use Rattle.std.specs.List.{flat_map, AllByRecursion};
ghost use Rattle.pt_instr.specs.declared.Instr.{Instr};
ghost use Rattle.pt_instr.specs.Encoding.{encoding, Fits};

use pt_base::{Memory, Seq};
use pt_instr::{Instr, decode};
use std::alloc::Global;

/// The instructions that bytes spell.
pub fn instructions(alloc: Global, bytes: &[u8]) -> Result<Seq<Instr>, Memory>
    ensures { IfOk result
        (λ s. (is : List Instr) → AllByRecursion Fits is → bytes.now ≡ flat_map encoding is → s ≡ is) }
{
    let mut instrs = Seq::new(alloc);
    let mut at = 0;
    while at < bytes.len() {
        let Some((instr, end)) = decode(bytes, at) else {
            return Ok(instrs);
        };
        instrs.push(instr)?;
        at = end;
    }
    Ok(instrs)
}
