//! The tables of all blocks.
ghost use Rattle.std.specs.Prelude.{◌≡◌, ℕ, Option, Some, slice_get, option_map, IfOk, IfSome};
ghost use Rattle.pt_instr.specs.Effects.{Kinds};
ghost use Rattle.pt_code.specs.declared.Code.{Code};
ghost use Rattle.pt_code.specs.declared.CodeBlock.{CodeBlock};
ghost use Rattle.pt_code.specs.View.{Ins, IsView};
ghost use Rattle.sem_fits.specs.fits.Block.{block_of};
ghost use Rattle.sem_fits.specs.fits.Fits.{AllFit, Fits};
ghost use Rattle.sem_fits.specs.fits.Jumps.{Jumps};
ghost use Rattle.sem_fits.specs.fits.Places.{Gets};
ghost use Rattle.pt_jump.specs.Targets.{answer_of};
ghost use Rattle.pt_block_kinds.specs.Told.{TellsListAt};
ghost use Rattle.pt_place_slots.specs.Kinds.{IsKinds, kinds_of};
ghost use Rattle.pt_place_slots.specs.Tables.{IsSound, TellsSlotsOf};
ghost use Rattle.pt_code_slots.specs.Blocks.{AreSound, TellsCode, TellsSlot};

use pt_base::{BlockId, Line, Memory, Pc};
use pt_code::{Code, CodeBlock, Start};
use pt_instr::Kind;
use pt_jump::{JumpErr, Land};
use pt_place_slots::{BlockSlots, KindsAt, block_slots};
use pt_places::Places;
use pt_verify_depths::{Sizes, sizes};
use std::alloc::Global;

/// What is asked of the slots of code that fits.
#[derive(Debug, Drop)]
pub struct CodeSlots {
    blocks: Vec<BlockSlots>,
}

/// The tables of a block.
fn slots_of(alloc: Global, code: &Code, block: &CodeBlock) -> Result<BlockSlots, Memory>
    ensures sound { IfOk result IsSound }
    ensures exact { IfOk result (λ slots. (view : ℕ → Option Ins) → IsView block.now view
        → Fits (block_of code.now block.now view)
        → TellsSlotsOf (block_of code.now block.now view) slots) }
{
    let places = Places::make(alloc, block)?;
    match sizes(alloc, code, block)? {
        Sizes::Agree(table) => {
            let slots = block_slots(alloc, code, block, &places, &table)?;
            Ok(slots)
        }
        _ => Err(Memory),
    }
}

/// Makes the tables of code that fits, as `verify` says of it. For n places and r handler rows it
/// takes time and memory O((n + r) log n).
///
/// # Errors
///
/// Those of `block_slots`, and where a block doesn't fit.
pub fn code_slots(alloc: Global, code: &Code) -> Result<CodeSlots, Memory>
    ensures sound { IfOk result AreSound }
    ensures exact { IfOk result (λ slots. AllFit code.now → TellsCode code.now slots) }
{
    let all = code.blocks.as_slice();
    let mut blocks = Vec::new(alloc);
    for block in all.iter() {
        blocks.push(slots_of(alloc, code, block)?)?;
    }
    Ok(CodeSlots { blocks })
}

impl CodeSlots {
    /// The kinds of the slots at a place; None where no way comes to it. It takes no memory.
    pub fn kinds_at(&self, block: BlockId, pc: Pc) -> Option<KindsAt<'_>>
        requires { AreSound self.now }
        ensures kinds { (code : Code) (b : CodeBlock) (view : ℕ → Option Ins)
            → TellsCode code self.now → slice_get code.blocks block.0 ≡ Some b → IsView b view
            → TellsListAt (block_of code b view) (block_of code b view).size pc.0
            (option_map kinds_of result) }
        ensures sound { IfSome result IsKinds }
    {
        match self.blocks.get(block.0 as usize) {
            None => None,
            Some(slots) => slots.kinds_at(pc),
        }
    }

    /// The kind of a slot at a place, counted from the lowest, and a number of the slot, which is
    /// the same at two places of the block just where these have the slot in common. None where no
    /// way comes to the place, or it has no such slot. It takes O(log n) steps and no memory.
    pub fn slot_at(&self, block: BlockId, pc: Pc, slot: u32) -> Option<(Kind, u32)>
        requires { AreSound self.now }
        ensures { (code : Code) (b : CodeBlock) (view : ℕ → Option Ins)
            → TellsCode code self.now → slice_get code.blocks block.0 ≡ Some b → IsView b view
            → TellsSlot (block_of code b view) self.now block.0 pc.0 slot result }
    {
        match self.blocks.get(block.0 as usize) {
            None => None,
            Some(slots) => slots.slot_at(pc, slot),
        }
    }

    /// Where a jump from a place to a line leads, with the starts of the block, or why it isn't
    /// permitted. It takes no memory.
    ///
    /// # Errors
    ///
    /// Those of `pt_jump::target`.
    pub fn target(
        &self,
        block: BlockId,
        starts: &[Start],
        from: Pc,
        line: Line,
    ) -> Result<Land, JumpErr>
        requires { AreSound self.now }
        ensures { (code : Code) (b : CodeBlock) (view : ℕ → Option Ins)
            → TellsCode code self.now → slice_get code.blocks block.0 ≡ Some b → IsView b view
            → b.starts ≡ starts.now → (ks : Kinds)
            → Gets (block_of code b view) (block_of code b view).size from.0 ks
            → Jumps (block_of code b view) from.0 ks line.0 (answer_of result) }
    {
        match self.blocks.get(block.0 as usize) {
            None => Err(JumpErr::NoStatement),
            Some(slots) => slots.target(starts, from, line),
        }
    }
}
