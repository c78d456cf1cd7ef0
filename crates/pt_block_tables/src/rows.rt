//! The first row of a block's tables that is wrong by places alone.
ghost use Rattle.std.specs.Prelude.{◌≡◌, ◌+◌, ◌++◌, [], ◌∷◌, ℕ, map, option_map, None, Option, IfOk};
ghost use Rattle.pt_code.specs.declared.Code.{Code};
ghost use Rattle.pt_code.specs.View.{Ins};
ghost use Rattle.pt_places.specs.PlaceTable.{HasPlaces};
ghost use Rattle.sem_fits.specs.fits.Block.{Block, block_of};
ghost use Rattle.sem_fits.specs.fits.Tables.{in_order, is_laid, is_place};
ghost use Rattle.pt_block_tables.specs.FirstRow.{IsFirstFalse, TellsRows};

use pt_base::{Memory, Pc};
use pt_code::{CodeBlock, Start};
use pt_places::Places;
use pt_ranges::{ActMark, Handler};

/// Whether an instruction starts at a place.
fn is_place(places: &Places, pc: Pc) -> bool
    ensures { (b : Block) → HasPlaces b.at places.now → result ≡ is_place b pc.0 }
{
    places.at(pc).is_some()
}

/// Whether one starts there, behind the place before.
fn is_next(places: &Places, before: Option<Pc>, pc: Pc) -> bool
    ensures { (b : Block) → HasPlaces b.at places.now
        → result ∷ [] ≡ in_order b (option_map (λ p. p.0) before) (pc.0 ∷ []) }
{
    match before {
        None => is_place(places, pc),
        Some(before) => is_place(places, pc) && before.0 < pc.0,
    }
}

/// The first mark that isn't at a place behind the one before.
fn bad_mark(places: &Places, marks: &[ActMark]) -> Option<usize>
    ensures { (b : Block) → HasPlaces b.at places.now
        → IsFirstFalse (in_order b None (map (λ m. m.pc.0) marks.now)) result }
{
    let mut before = None;
    for number in 0..marks.len() {
        let pc = marks[number].pc;
        if !is_next(places, before, pc) {
            return Some(number);
        }
        before = Some(pc);
    }
    None
}

/// The first start that isn't at a place behind the one before.
fn bad_start(places: &Places, starts: &[Start]) -> Option<usize>
    ensures { (b : Block) → HasPlaces b.at places.now
        → IsFirstFalse (in_order b None (map (λ s. s.pc.0) starts.now)) result }
{
    let mut before = None;
    for number in 0..starts.len() {
        let pc = starts[number].pc;
        if !is_next(places, before, pc) {
            return Some(number);
        }
        before = Some(pc);
    }
    None
}

/// Whether a row goes from a place to a place or the end, and has a place as its target.
fn is_laid(places: &Places, size: usize, row: &Handler) -> bool
    ensures { (b : Block) → HasPlaces b.at places.now → b.size ≡ size
        → result ≡ is_laid b row.now }
{
    is_place(places, row.from)
        && (is_place(places, row.to) || row.to.0 as usize == size)
        && is_place(places, row.target)
}

/// The first handler row that isn't laid so.
fn bad_handler(places: &Places, size: usize, handlers: &[Handler]) -> Option<usize>
    ensures { (b : Block) → HasPlaces b.at places.now → b.size ≡ size
        → IsFirstFalse (map (is_laid b) handlers.now) result }
{
    for number in 0..handlers.len() {
        if !is_laid(places, size, &handlers[number]) {
            return Some(number);
        }
    }
    None
}

/// The number of a row, counted through so many before.
///
/// # Errors
///
/// `Memory` where it passes 2^64, as in no table.
pub fn row_number(before: usize, row: Option<usize>) -> Result<Option<usize>, Memory>
    ensures { IfOk result (λ number. number ≡ option_map (λ k. before + k) row) }
{
    match row {
        None => Ok(None),
        Some(row) => match before.checked_add(row) {
            None => Err(Memory),
            Some(number) => Ok(Some(number)),
        },
    }
}

/// The first of the handler rows and starts that is wrong.
fn bad_behind_marks(
    places: &Places,
    size: usize,
    handlers: &[Handler],
    starts: &[Start],
) -> Result<Option<usize>, Memory>
    ensures { IfOk result (λ row. (b : Block) → HasPlaces b.at places.now → b.size ≡ size
        → IsFirstFalse (map (is_laid b) handlers.now
        ++ in_order b None (map (λ s. s.pc.0) starts.now)) row) }
{
    match bad_handler(places, size, handlers) {
        Some(row) => Ok(Some(row)),
        None => row_number(handlers.len(), bad_start(places, starts)),
    }
}

/// The least row of the tables of a block that is wrong by places alone: a mark or a start that
/// isn't at a place behind the one before, a handler row that doesn't go from a place to a place or
/// the end or whose target is no place. Rows are counted through marks, handlers and starts. It
/// takes time linear in them.
///
/// # Errors
///
/// `Memory` where there are 2^64 rows, as no block has.
pub fn first_bad_row(places: &Places, block: &CodeBlock) -> Result<Option<usize>, Memory>
    ensures { IfOk result (λ row. (code : Code) (view : ℕ → Option Ins)
        → HasPlaces view places.now → TellsRows (block_of code block.now view) row) }
{
    let marks = block.marks.as_slice();
    match bad_mark(places, marks) {
        Some(row) => Ok(Some(row)),
        None => {
            let size = block.instructions.len();
            let handlers = block.handlers.as_slice();
            let row = bad_behind_marks(places, size, handlers, block.starts.as_slice())?;
            row_number(marks.len(), row)
        }
    }
}
