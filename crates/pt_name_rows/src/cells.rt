//! Names that have cells, by their numbers in the block.
ghost use Rattle.std.specs.Prelude.{◌≡◌, ◌++◌, ◌∷◌, [], slice_get, slice_set, length, nat_lt, IfOk};
ghost use Rattle.std.specs.Prelude.{OnOk};
ghost use Rattle.pt_instr.specs.declared.Instr.TheVariants as instr;
ghost use Rattle.pt_frames.specs.Slots.{active_in};
ghost use Rattle.pt_name_rows.specs.Names.{RowsCell, RowsOwnCell, value_through, with_value};

use crate::locals::{put_at, value_at};
use crate::unbound::unbound_cell;
use pt_base::{Memory, Seq};
use pt_code_facts::BlockFacts;
use pt_frames::{Slot, Slots};
use pt_heap::Value;
use pt_instr::SlotNo;
use pt_moves::{Progress, take_one};
use std::alloc::Global;

/// The most cells that are kept.
const CELL_LIMIT: usize = 4_294_967_295;

/// The value in the cell of a name, if it has a cell and a value.
pub fn value_through(own: &Seq<u32>, cells: &Seq<Option<Value>>, number: usize) -> Option<Value>
    ensures { result ≡ value_through own.now cells.now number }
{
    match own.get(number) {
        Some(cell) => value_at(cells, *cell as usize),
        None => None,
    }
}

/// Puts a value, or none, into the cell of a name, if it has a cell.
pub fn put_through(
    own: &Seq<u32>,
    cells: &mut Seq<Option<Value>>,
    number: usize,
    value: Option<Value>,
)
    ensures { cells.new ≡ with_value (slice_get own.now number) value cells.old }
{
    if let Some(cell) = own.get(number) {
        put_at(cells, *cell as usize, value);
    }
}

/// Gives the value of a cell or free name, whose cells are its own ones of the activation.
#[tactic(auto, using(crate::proofs::CellLemmas::found, crate::proofs::CellLemmas::missing, pt_moves::proofs::TakeLemmas::quiet_over))]
pub fn cell(
    alloc: Global,
    slot: SlotNo,
    facts: &BlockFacts,
    own: &Seq<u32>,
    cells: &Seq<Option<Value>>,
    slots: &mut Slots,
) -> Result<Progress, Memory>
    ensures row { IfOk result
        (λ p. RowsCell facts.now own.now slot.0 (instr.Cell slot) slots.old cells.now p
        slots.new cells.now) }
    ensures active { OnOk result (active_in slots.new ≡ active_in slots.old) }
{
    let number = slot.0 as usize;
    match value_through(own, cells, number) {
        Some(value) => {
            slots.push(Slot::Value(value))?;
            Ok(Progress::Next)
        }
        None => unbound_cell(alloc, facts, number),
    }
}

/// Binds a cell or free name.
#[tactic(auto, using(crate::proofs::CellLemmas::stored, crate::proofs::CellLemmas::store_lacks))]
pub fn set_cell(
    slot: SlotNo,
    own: &Seq<u32>,
    cells: &mut Seq<Option<Value>>,
    slots: &mut Slots,
) -> Progress
    ensures row { (facts : _)
        → RowsCell facts own.now slot.0 (instr.SetCell slot) slots.old cells.old result
        slots.new cells.new }
    ensures active { active_in slots.new ≡ active_in slots.old }
{
    match take_one(slots) {
        Some(value) => {
            put_through(own, cells, slot.0 as usize, Some(value));
            Progress::Next
        }
        None => Progress::Lacks,
    }
}

/// Unbinds a cell or free name.
#[tactic(auto, using(crate::proofs::CellLemmas::deleted, crate::proofs::CellLemmas::delete_missing))]
pub fn delete_cell(
    alloc: Global,
    slot: SlotNo,
    facts: &BlockFacts,
    own: &Seq<u32>,
    cells: &mut Seq<Option<Value>>,
) -> Result<Progress, Memory>
    ensures { IfOk result
        (λ p. (slots : _)
        → RowsCell facts.now own.now slot.0 (instr.DelCell slot) slots cells.old p slots
        cells.new) }
{
    let number = slot.0 as usize;
    match value_through(own, cells, number) {
        Some(_) => {
            put_through(own, cells, number, None);
            Ok(Progress::Next)
        }
        None => unbound_cell(alloc, facts, number),
    }
}

/// Makes a cell behind the others, and answers its number. Where 2^32 - 1 are there it answers
/// Memory.
fn new_cell(cells: &mut Seq<Option<Value>>, value: Option<Value>) -> Result<u32, Memory>
    ensures number { IfOk result (λ n. n ≡ length cells.old) }
    ensures cells { OnOk result (cells.new ≡ cells.old ++ value ∷ []) }
{
    let number = cells.len();
    if number >= CELL_LIMIT {
        return Err(Memory);
    }
    cells.push(value)?;
    Ok(number as u32)
}

/// Whether a number is that of a cell name of the block, and not of a free one.
fn is_cell_name(facts: &BlockFacts, number: usize) -> bool
    ensures { result ≡ nat_lt number (length facts.now.cells) }
{
    number < facts.cells.len()
}

/// Makes a name anew, without a value (Language Reference 6.2.4): a cell name has a cell of its own
/// then.
#[tactic(auto, using(crate::proofs::CellLemmas::made_anew, crate::proofs::CellLemmas::emptied))]
pub fn fresh_cell(
    slot: SlotNo,
    facts: &BlockFacts,
    own: &mut Seq<u32>,
    cells: &mut Seq<Option<Value>>,
) -> Result<Progress, Memory>
    ensures { IfOk result
        (λ p. RowsOwnCell facts.now slot.0 (instr.FreshCell slot) own.old cells.old p own.new
        cells.new) }
{
    let number = slot.0 as usize;
    if is_cell_name(facts, number) {
        let cell = new_cell(cells, None)?;
        set_number(own, number, cell);
    } else {
        put_through(own, cells, number, None);
    }
    Ok(Progress::Next)
}

/// Puts a number at a place, where there is such a place.
fn set_number(numbers: &mut Seq<u32>, at: usize, number: u32)
    ensures { numbers.new ≡ slice_set numbers.old at number }
{
    if at < numbers.len() {
        numbers.set(at, number);
    }
}

/// Gives the cell of a cell or free name, for a block that takes it along.
#[tactic(auto, using(crate::proofs::CellLemmas::pushed, crate::proofs::CellLemmas::push_lacks, pt_moves::proofs::TakeLemmas::quiet_over_cell))]
pub fn push_cell(slot: SlotNo, own: &Seq<u32>, slots: &mut Slots) -> Result<Progress, Memory>
    ensures row { IfOk result
        (λ p. (facts : _) → (cells : _)
        → RowsCell facts own.now slot.0 (instr.PushCell slot) slots.old cells p slots.new
        cells) }
    ensures active { OnOk result (active_in slots.new ≡ active_in slots.old) }
{
    match own.get(slot.0 as usize).copied() {
        Some(cell) => {
            slots.push(Slot::Cell(cell))?;
            Ok(Progress::Next)
        }
        None => Ok(Progress::Lacks),
    }
}
