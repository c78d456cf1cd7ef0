ghost use Rattle.std.specs.Prelude.{◌≡◌, ◌+◌, ◌++◌, ◌≤◌, IfOk, IfSome, vec_len, vec_capacity};
ghost use Rattle.pt_cover.specs.HasTaken.{counts_of};
ghost use Rattle.pt_cover.specs.Kept.{HasDifferentRows, counts_then, report_of, room_for};
ghost use Rattle.pt_cover.specs.Room.{names_room};

use crate::given::{line_rows, name_rows};
use crate::kind::ReportKind;
use crate::line_counts;
use crate::name_counts::NameCounts;
use crate::report::{put_lines_report, put_names_report};
use crate::rows::{LineCount, NameCount};
use pt_base::{Line, Memory, Seq, Text};
use std::alloc::Global;

/// What is kept for a report.
#[derive(Debug, Drop)]
pub enum Counts {
    Lines(Seq<LineCount>),
    Names(NameCounts),
}

/// The bytes that the names of a report take at most.
fn names_room(rows: &[NameCount]) -> Option<usize>
    ensures { IfSome result (λ room. room ≡ names_room rows.now) }
{
    let mut room: usize = 0;
    for row in rows {
        room = room.checked_add(row.name.len())?.checked_add(64)?;
    }
    Some(room)
}

impl Counts {
    /// Of these lines or names, before any event.
    pub fn new(
        alloc: Global,
        kind: ReportKind,
        lines: &[Line],
        names: &[Text],
    ) -> Result<Counts, Memory>
        ensures counts { IfOk result (λ c. c ≡ counts_of kind lines.now names.now) }
        ensures different { IfOk result HasDifferentRows }
    {
        match kind {
            ReportKind::Lines => Ok(Counts::Lines(line_rows(alloc, lines)?)),
            ReportKind::Names => {
                let rows = name_rows(alloc, names)?;
                Ok(Counts::Names(NameCounts::new(alloc, rows)?))
            }
        }
    }

    /// The bytes that the report takes at most, if there are so many.
    pub fn room(&self) -> Option<usize>
        ensures { IfSome result (λ room. room ≡ room_for self.now) }
    {
        match self {
            Counts::Lines(rows) => rows.len().checked_mul(42)?.checked_add(54),
            Counts::Names(names) => names_room(names.rows())?.checked_add(27),
        }
    }

    /// Counts an event.
    pub fn count(&mut self, event: &[u8])
        ensures { self.new ≡ counts_then self.old event.now }
    {
        match self {
            Counts::Lines(rows) => line_counts::count(rows, event),
            Counts::Names(names) => names.count(event),
        }
    }

    /// Puts the report into a room that is large enough.
    pub fn put_report(&self, room: &mut Vec<u8>)
        requires { vec_len room.old + room_for self.now ≤ vec_capacity room.old }
        ensures items { room.new.items ≡ room.old.items ++ report_of self.now }
        ensures capacity { vec_capacity room.old ≤ vec_capacity room.new }
    {
        match self {
            Counts::Lines(rows) => put_lines_report(room, rows.as_slice()),
            Counts::Names(names) => put_names_report(room, names),
        }
    }
}
