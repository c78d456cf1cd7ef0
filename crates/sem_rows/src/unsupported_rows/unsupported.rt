//! What comes of instructions that aren't supported yet.
ghost use Rattle.std.specs.Prelude.{◌≡◌, false};
ghost use Rattle.pt_instr.specs.declared.Instr.{Instr};
ghost use Rattle.sem_rows.specs.unsupported_rows.Unsupported.{RowsOutside, is_supported};

use crate::heap_rows::Progress;
use pt_base::What;

/// An instruction that isn't supported yet leaves the profile where the slots have what it takes. A
/// value isn't given on yet either, where a bare run is stuck.
#[tactic(auto, using(crate::proofs::unsupported_rows::OutsideLemmas::rows_outside))]
pub fn not_supported() -> Progress
    ensures { (j : Instr) → is_supported j ≡ false → RowsOutside j result }
{
    Progress::Outside {
        what: What::Feature,
    }
}
