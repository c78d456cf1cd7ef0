ghost use Rattle.std.specs.Prelude.{◌≡◌, IfOk};
ghost use Rattle.std.specs.Option.{option_map};
ghost use Rattle.pt_ranges.specs.Marks.{Rises, mark_over};

use pt_base::{ActNo, Line, Memory, Pc, Seq};
use std::alloc::Global;
use std::marker::Model;

/// Where an act begins in the code, and on which line.
#[derive(Clone, Copy, Debug, PartialEq, Eq)]
pub struct ActMark {
    pub pc: Pc,
    pub act: ActNo,
    pub line: Line,
    /// It is the test of a loop that is made again, which no change of line announces.
    pub again: bool,
}

/// The marks of a block in the order of their places. A mark covers the places from its own up to
/// that of the next.
#[derive(Debug, Drop)]
pub struct LineTable {
    rows: Seq<ActMark>,
}

impl Model for LineTable {
    ghost use Rattle.std.specs.Prelude.{List};
    ghost use Rattle.pt_ranges.specs.declared.lines.ActMark.{ActMark};
    ghost use Rattle.pt_ranges.specs.Marks.{Rises};

    ghost Value = { List ActMark };

    ghost view = { λ t. t.rows };

    ghost invariant = { λ t. Rises t.rows };
}

impl LineTable {
    /// The table of marks whose places rise.
    pub fn build(alloc: Global, rows: &[ActMark]) -> Result<LineTable, Memory>
        requires { Rises rows.now }
        ensures { IfOk result (λ t. t ≡ rows.now) }
    {
        let rows = Seq::from_slice(alloc, rows)?;
        Ok(LineTable { rows })
    }

    /// The line of the act that is under way at a place. It takes about log n steps for n marks.
    pub fn line_at(&self, pc: Pc) -> Option<Line>
        ensures { result ≡ option_map (λ m. m.line) (mark_over self.now pc) }
    {
        match self.act_at(pc) {
            Some(mark) => Some(mark.line),
            None => None,
        }
    }

    /// The mark that covers a place: the last one that stands there or before it.
    pub fn act_at(&self, pc: Pc) -> Option<ActMark>
        ensures { result ≡ mark_over self.now pc }
    {
        last_up_to(self.rows.as_slice(), pc)
    }
}

fn last_up_to(rows: &[ActMark], pc: Pc) -> Option<ActMark>
    requires { Rises rows.now }
    ensures { result ≡ mark_over rows.now pc }
{
    let behind = rows.partition_point(|mark| mark.pc.0 <= pc.0);
    rows[..behind].last().copied()
}
