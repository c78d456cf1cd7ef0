ghost use Rattle.std.specs.Prelude.{◌≡◌};
ghost use Rattle.pt_assembler.specs.PieceAt.{instr_to, instr_of_free};

use crate::{FreeUse, Jump};
use pt_base::{Line, Pc, Seq};
use pt_code::{BlockKind, Rest};
use pt_instr::{Instr, SlotNo, TextNo};
use pt_ranges::ActMark;

/// What a block has beside its instructions and names.
#[derive(Clone, Copy, Debug, PartialEq, Eq)]
pub struct Heading {
    pub name: TextNo,
    pub kind: BlockKind,
    pub first_line: Line,
    pub parameters: u32,
    pub rest: Rest,
    pub keyword_only: u32,
}

/// Instructions as bytes, and where acts begin in them.
#[derive(Drop)]
pub struct Image {
    pub instructions: Seq<u8>,
    pub marks: Seq<ActMark>,
}

/// The instruction that goes to a place.
pub fn instr_to(jump: Jump, pc: Pc) -> Instr
    ensures { result ≡ instr_to jump pc.0 }
{
    match jump {
        Jump::AtEnd => Instr::Next(pc),
        Jump::Always => Instr::Jump(pc),
        Jump::IfTrue => Instr::JumpIf(pc),
        Jump::IfFalse => Instr::JumpUnless(pc),
        Jump::IfTrueKeep => Instr::JumpIfKeep(pc),
        Jump::IfFalseKeep => Instr::JumpUnlessKeep(pc),
        Jump::Leave => Instr::Leave(pc),
    }
}

/// The instruction on a slot for a cell.
pub fn instr_of_free(use_of: FreeUse, slot: SlotNo) -> Instr
    ensures { result ≡ instr_of_free use_of slot.0 }
{
    match use_of {
        FreeUse::Load => Instr::Cell(slot),
        FreeUse::Store => Instr::SetCell(slot),
        FreeUse::Delete => Instr::DelCell(slot),
        FreeUse::Renew => Instr::FreshCell(slot),
        FreeUse::Push => Instr::PushCell(slot),
    }
}
