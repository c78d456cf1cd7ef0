//! How many values and cells are taken off the slots.
ghost use Rattle.std.specs.Prelude.{◌≡◌, drop, IfOk, IfSome, OnOk};
ghost use Rattle.pt_frames.specs.Slots.{active_in};
ghost use Rattle.pt_function_rows.specs.Operands.{cell_in, many_cells, many_values, one_cell};

use pt_base::{Memory, Seq};
use pt_frames::{Slot, Slots};
use pt_heap::Value;
use pt_moves::take_one;
use std::alloc::Global;

/// Takes so many values off, of which the last was on top, or answers None where fewer lie there.
#[tactic(auto, using(crate::proofs::TakeLemmas::values_next, crate::proofs::TakeLemmas::values_stop, crate::proofs::TakeLemmas::one_less, crate::proofs::TakeLemmas::values_all, crate::proofs::TakeLemmas::drop_all))]
pub fn take_values(
    alloc: Global,
    count: usize,
    slots: &mut Slots,
) -> Result<Option<Seq<Value>>, Memory>
    ensures values { IfOk result (λ values. values ≡ many_values count slots.old) }
    ensures below { IfOk result (λ values. IfSome values (λ _. slots.new ≡ drop count slots.old)) }
    ensures active { OnOk result (active_in slots.new ≡ active_in slots.old) }
{
    let mut values = Vec::new(alloc);
    for _taken in 0..count {
        match take_one(slots) {
            Some(value) => values.push(value)?,
            None => return Ok(None),
        }
    }
    values.reverse();
    Ok(Some(Seq::from_vec(values)))
}

/// The number of the cell that a slot holds, if it is there and holds one.
fn cell_in(slot: Option<Slot>) -> Option<u32>
    ensures { result ≡ cell_in slot }
{
    match slot {
        Some(Slot::Cell(number)) => Some(number),
        _ => None,
    }
}

/// Takes the number of a cell off, or answers None where none is on top.
#[tactic(auto, using(crate::proofs::TakeLemmas::first_cell, pt_moves::proofs::TakeLemmas::popped, crate::proofs::TakeLemmas::quiet_cell))]
fn take_cell(slots: &mut Slots) -> Option<u32>
    ensures cell { result ≡ one_cell slots.old }
    ensures below { IfSome result (λ _. slots.new ≡ drop 1 slots.old) }
    ensures active { active_in slots.new ≡ active_in slots.old }
{
    match cell_in(slots.get(0)) {
        Some(number) => {
            slots.pop();
            Some(number)
        }
        None => None,
    }
}

/// Takes the numbers of so many cells off, of which the last was on top, or answers None where
/// fewer lie there.
#[tactic(auto, using(crate::proofs::TakeLemmas::cells_next, crate::proofs::TakeLemmas::cells_stop, crate::proofs::TakeLemmas::one_less, crate::proofs::TakeLemmas::cells_all, crate::proofs::TakeLemmas::drop_all))]
pub fn take_cells(
    alloc: Global,
    count: usize,
    slots: &mut Slots,
) -> Result<Option<Seq<u32>>, Memory>
    ensures cells { IfOk result (λ cells. cells ≡ many_cells count slots.old) }
    ensures below { IfOk result (λ cells. IfSome cells (λ _. slots.new ≡ drop count slots.old)) }
    ensures active { OnOk result (active_in slots.new ≡ active_in slots.old) }
{
    let mut cells = Vec::new(alloc);
    for _taken in 0..count {
        match take_cell(slots) {
            Some(number) => cells.push(number)?,
            None => return Ok(None),
        }
    }
    cells.reverse();
    Ok(Some(Seq::from_vec(cells)))
}
