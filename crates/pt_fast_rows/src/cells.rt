//! Names that have cells and are bound (Language Reference 4.2.2, 7.2).
ghost use Rattle.std.specs.Prelude.{◌≡◌, IfOk};
ghost use Rattle.pt_fast_rows.specs.FastPaths.{FastCell, Leads};
ghost use Rattle.pt_instr.specs.declared.Instr.TheVariants as instr;

use crate::taking::take_value;
use pt_base::{Memory, Pc, Seq};
use pt_frames::{Slot, Slots};
use pt_heap::Value;
use pt_instr::SlotNo;
use pt_name_rows::{put_through, value_through};

/// Gives the value of a cell or free name, whose cells are its own ones of the activation.
pub fn fast_cell(
    slot: SlotNo,
    next: Pc,
    own: &Seq<u32>,
    cells: &Seq<Option<Value>>,
    slots: &mut Slots,
) -> Result<Option<Pc>, Memory>
    ensures { IfOk result
        (λ o. Leads next o
        (λ p. FastCell own.now (instr.Cell slot) slot.0 p slots.old cells.now slots.new cells.now)
        (slots.new ≡ slots.old)) }
{
    match value_through(own, cells, slot.0 as usize) {
        Some(value) => {
            slots.push(Slot::Value(value))?;
            Ok(Some(next))
        }
        None => Ok(None),
    }
}

/// Binds a cell or free name.
#[tactic(auto, using(crate::proofs::NameLemmas::none_stored))]
pub fn fast_set_cell(
    slot: SlotNo,
    next: Pc,
    own: &Seq<u32>,
    cells: &mut Seq<Option<Value>>,
    slots: &mut Slots,
) -> Option<Pc>
    ensures { Leads next result
        (λ p. FastCell own.now (instr.SetCell slot) slot.0 p slots.old cells.old slots.new cells.new)
        ((slots.new ≡ slots.old) × (cells.new ≡ cells.old)) }
{
    match take_value(slots) {
        Some(value) => {
            put_through(own, cells, slot.0 as usize, Some(value));
            Some(next)
        }
        None => None,
    }
}
