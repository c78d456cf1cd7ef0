ghost use Rattle.std.specs.Prelude.{◌≡◌};
ghost use Rattle.pt_cover.specs.Pieces.{kind_of, line_of};
ghost use Rattle.pt_cover.specs.Tallies.{line_place, lines_of, lines_then, changed_at, one_line_more};

use crate::pieces;
use crate::rows::{LineCount, begun_again};
use crate::told::Told;
use pt_base::Seq;

/// The place of a line among the rows, or their count where it has none.
fn place(rows: &[LineCount], line: u32) -> usize
    ensures { result ≡ line_place (lines_of rows.now) line }
{
    for (at, row) in rows.iter().enumerate() {
        if row.line.0 == line {
            return at;
        }
    }
    rows.len()
}

/// Counts that a line was begun.
fn begin(rows: &mut Seq<LineCount>, line: u32)
    ensures { rows.new ≡ changed_at rows.old (line_place (lines_of rows.old) line) one_line_more }
{
    let at = place(rows.as_slice(), line);
    if let Some(row) = rows.get(at) {
        let more = begun_again(*row);
        rows.set(at, more);
    }
}

/// Counts the line that an event begins.
pub fn count(rows: &mut Seq<LineCount>, event: &[u8])
    ensures { rows.new ≡ lines_then rows.old (kind_of event.now) (line_of event.now) }
{
    match pieces::kind(event) {
        Told::Line => {
            if let Some(line) = pieces::line(event) {
                begin(rows, line);
            }
        }
        Told::Call | Told::Return | Told::Other => {}
    }
}
