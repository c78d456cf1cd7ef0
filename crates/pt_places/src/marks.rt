//! The acts that begin at the places of a block.
ghost use Rattle.std.specs.Prelude.{◌≡◌, Some, length, slice_set, IfOk};
ghost use Rattle.pt_places.specs.PlaceTable.{HasMarks, entry};

use pt_base::Memory;
use pt_ranges::ActMark;
use std::alloc::Global;

/// Puts a mark at its place, if the table has that.
fn put_mark(table: &mut Vec<Option<ActMark>>, mark: ActMark)
    ensures { table.new.items ≡ slice_set table.old.items mark.pc.0 (Some mark) }
{
    let at = mark.pc.0 as usize;
    if at < table.len() {
        table[at] = Some(mark);
    }
}

/// The mark that comes first of those at each place below a count.
#[tactic(auto, using(crate::proofs::TableLemmas::no_marks_left, crate::proofs::TableLemmas::mark_put))]
pub fn marks_by_place(
    alloc: Global,
    marks: &[ActMark],
    count: usize,
) -> Result<Vec<Option<ActMark>>, Memory>
    ensures { IfOk result (λ table. HasMarks marks.now count table.items) }
{
    let mut table = vec![in alloc; None; count]?;
    let mut left = marks.len();
    while left > 0 {
        left -= 1;
        put_mark(&mut table, marks[left]);
    }
    Ok(table)
}

/// The mark that a table has for a place.
pub fn mark_in(table: &[Option<ActMark>], at: usize) -> Option<ActMark>
    ensures { result ≡ entry table.now at }
{
    match table.get(at) {
        Some(mark) => *mark,
        None => None,
    }
}
