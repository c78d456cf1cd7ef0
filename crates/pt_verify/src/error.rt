//! Why code isn't verified.
ghost use Rattle.std.specs.Prelude.{◌≡◌};
ghost use Rattle.pt_code.specs.declared.Code.{Code};
ghost use Rattle.pt_refusals.specs.Verdicts.{misfit_of};
ghost use Rattle.pt_verify.specs.Verdict.{FirstRefused, IsRefused, place_of, placed};

use pt_base::{BlockId, Pc};
use pt_refusals::Refusal;

/// Why code isn't verified: why its first block that doesn't fit is refused, and where.
#[derive(Clone, Copy, Debug, PartialEq, Eq)]
pub enum VerifyErr {
    /// A place gets two numbers of slots, or too few lie there.
    Stack { block: BlockId, pc: Pc },
    /// A slot has another kind than is wanted, or an instruction may not stand in its block.
    Kind { block: BlockId, pc: Pc },
    /// An instruction goes on to where none stands, or a Leave to where no way leads.
    Target { block: BlockId, pc: Pc },
    /// A row of the tables is wrong, counted through marks, handlers and starts.
    Table { block: BlockId, row: u32 },
    /// No act begins on a cycle through this place.
    SilentLoop { block: BlockId, pc: Pc },
    /// More slots lie at a place than an activation may have.
    Depth { block: BlockId },
    Memory,
}

impl VerifyErr {
    ghost use Rattle.std.specs.Prelude.{◌≡◌};
    ghost use Rattle.pt_verify.specs.Verdict.{number_and_place};

    /// The number of the refusal, from 23 on, and the place that is told of it: a place of the code,
    /// a row, or the block of a `Depth`. Want of memory has none.
    pub fn refusal(&self) -> Option<(u8, u32)>
        ensures { result ≡ number_and_place self.now }
    {
        match self {
            VerifyErr::Stack { pc, .. } => Some((23, pc.0)),
            VerifyErr::Kind { pc, .. } => Some((24, pc.0)),
            VerifyErr::Target { pc, .. } => Some((25, pc.0)),
            VerifyErr::Table { row, .. } => Some((26, *row)),
            VerifyErr::SilentLoop { pc, .. } => Some((27, pc.0)),
            VerifyErr::Depth { block } => Some((28, block.0)),
            VerifyErr::Memory => None,
        }
    }
}

/// The refusal at a place of a block.
fn placed(block: BlockId, refusal: Refusal, place: u32) -> VerifyErr
    ensures { result ≡ placed block refusal place }
{
    let pc = Pc(place);
    match refusal {
        Refusal::Stack(_) => VerifyErr::Stack { block, pc },
        Refusal::Kind(_) => VerifyErr::Kind { block, pc },
        Refusal::Target(_) => VerifyErr::Target { block, pc },
        Refusal::Table(_) => VerifyErr::Table { block, row: place },
        Refusal::SilentLoop(_) => VerifyErr::SilentLoop { block, pc },
        Refusal::Depth => VerifyErr::Depth { block },
    }
}

fn place_of(refusal: Refusal) -> usize
    ensures { result ≡ place_of refusal }
{
    match refusal {
        Refusal::Stack(place)
        | Refusal::Kind(place)
        | Refusal::Target(place)
        | Refusal::Table(place)
        | Refusal::SilentLoop(place) => place,
        Refusal::Depth => 0,
    }
}

/// Why code isn't verified whose first block that doesn't fit is refused so. It is want of memory
/// where a number passes 2^32, as in no code file.
pub fn error_of(block: usize, refusal: Refusal) -> VerifyErr
    ensures { (c : Code) → FirstRefused c block (misfit_of refusal) → IsRefused c result }
{
    match (u32::try_from(block), u32::try_from(place_of(refusal))) {
        (Ok(block), Ok(place)) => placed(BlockId(block), refusal, place),
        _ => VerifyErr::Memory,
    }
}
