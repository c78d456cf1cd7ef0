ghost use Rattle.std.specs.Prelude.{◌≡◌, ◌+◌, ◌*◌, ◌≤◌, ◌++◌, [], ◌∷◌, length, vec_len, vec_capacity, flat_map, count_by};
ghost use Rattle.std.specs.Fmt.{decimal};
ghost use Rattle.pt_cover.specs.Reports.{behind_blank, line_end, line_text, called_text, name_text, covered_text, is_covered, lines_report, names_report};
ghost use Rattle.pt_cover.specs.Room.{names_room};

use crate::name_counts::NameCounts;
use crate::rows::{LineCount, NameCount};
use itoa::Buffer;

/// Puts a text behind another, where there is room for it.
fn put(room: &mut Vec<u8>, text: &[u8])
    requires { vec_len room.old + length text.now ≤ vec_capacity room.old }
    ensures items { room.new.items ≡ room.old.items ++ text.now }
    ensures capacity { vec_capacity room.old ≤ vec_capacity room.new }
{
    let _ = room.extend_from_slice(text);
}

fn put_number(room: &mut Vec<u8>, number: u64)
    requires { vec_len room.old + 20 ≤ vec_capacity room.old }
    ensures items { room.new.items ≡ room.old.items ++ decimal number }
    ensures capacity { vec_capacity room.old ≤ vec_capacity room.new }
    ensures short { vec_len room.new ≤ vec_len room.old + 20 }
{
    let mut buffer = Buffer::new();
    put(room, buffer.format(number).as_bytes());
}

/// A number with a blank before it.
fn put_behind(room: &mut Vec<u8>, number: u64)
    requires { vec_len room.old + 21 ≤ vec_capacity room.old }
    ensures items { room.new.items ≡ room.old.items ++ behind_blank number }
    ensures capacity { vec_capacity room.old ≤ vec_capacity room.new }
    ensures short { vec_len room.new ≤ vec_len room.old + 21 }
{
    put(room, b" ");
    put_number(room, number);
}

fn put_line(room: &mut Vec<u8>, row: &LineCount)
    requires { vec_len room.old + 42 ≤ vec_capacity room.old }
    ensures items { room.new.items ≡ room.old.items ++ line_text row.now }
    ensures capacity { vec_capacity room.old ≤ vec_capacity room.new }
    ensures short { vec_len room.new ≤ vec_len room.old + 42 }
{
    put_number(room, u64::from(row.line.0));
    put_behind(room, row.count);
    put(room, b"\n");
}

fn put_lines(room: &mut Vec<u8>, rows: &[LineCount])
    requires { vec_len room.old + 42 * length rows.now ≤ vec_capacity room.old }
    ensures items { room.new.items ≡ room.old.items ++ flat_map line_text rows.now }
    ensures capacity { vec_capacity room.old ≤ vec_capacity room.new }
    ensures short { vec_len room.new ≤ vec_len room.old + 42 * length rows.now }
{
    for row in rows {
        put_line(room, row);
    }
}

fn put_covered(room: &mut Vec<u8>, covered: usize, lines: usize)
    requires { vec_len room.old + 54 ≤ vec_capacity room.old }
    ensures items { room.new.items ≡ room.old.items ++ covered_text covered lines }
    ensures capacity { vec_capacity room.old ≤ vec_capacity room.new }
{
    put(room, b"covered");
    put_behind(room, covered as u64);
    put(room, b" of");
    put_behind(room, lines as u64);
    put(room, b"\n");
}

/// The report of lines, where there is room for it.
pub fn put_lines_report(room: &mut Vec<u8>, rows: &[LineCount])
    requires { vec_len room.old + (42 * length rows.now + 54) ≤ vec_capacity room.old }
    ensures items { room.new.items ≡ room.old.items ++ lines_report rows.now }
    ensures capacity { vec_capacity room.old ≤ vec_capacity room.new }
{
    put_lines(room, rows);
    let covered = rows.iter().filter(|row| row.count > 0).count();
    put_covered(room, covered, rows.len());
}

fn put_name(room: &mut Vec<u8>, row: &NameCount)
    requires { vec_len room.old + (length row.now.name + 64) ≤ vec_capacity room.old }
    ensures items { room.new.items ≡ room.old.items ++ name_text row.now }
    ensures capacity { vec_capacity room.old ≤ vec_capacity room.new }
    ensures short { vec_len room.new ≤ vec_len room.old + (length row.now.name + 64) }
{
    put(room, row.name.as_str().as_bytes());
    put_behind(room, row.calls);
    put_behind(room, row.own);
    put_behind(room, row.all);
    put(room, b"\n");
}

fn put_called(room: &mut Vec<u8>, row: &NameCount)
    requires { vec_len room.old + (length row.now.name + 64) ≤ vec_capacity room.old }
    ensures items { room.new.items ≡ room.old.items ++ called_text row.now }
    ensures capacity { vec_capacity room.old ≤ vec_capacity room.new }
    ensures short { vec_len room.new ≤ vec_len room.old + (length row.now.name + 64) }
{
    if row.calls > 0 {
        put_name(room, row);
    }
}

fn put_names(room: &mut Vec<u8>, rows: &[NameCount])
    requires { vec_len room.old + names_room rows.now ≤ vec_capacity room.old }
    ensures items { room.new.items ≡ room.old.items ++ flat_map called_text rows.now }
    ensures capacity { vec_capacity room.old ≤ vec_capacity room.new }
    ensures short { vec_len room.new ≤ vec_len room.old + names_room rows.now }
{
    for row in rows {
        put_called(room, row);
    }
}

/// The report of names, where there is room for it.
pub fn put_names_report(room: &mut Vec<u8>, counts: &NameCounts)
    requires { vec_len room.old + (names_room counts.now.rows + 27) ≤ vec_capacity room.old }
    ensures items { room.new.items ≡ room.old.items ++ names_report counts.now }
    ensures capacity { vec_capacity room.old ≤ vec_capacity room.new }
{
    put_names(room, counts.rows());
    put(room, b"lines");
    put_behind(room, counts.total());
    put(room, b"\n");
}
