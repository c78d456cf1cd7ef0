ghost use Rattle.std.specs.Prelude.{◌≡◌, [], IfOk, OnOk, map};
ghost use Rattle.std.specs.List.{list_any};
ghost use Rattle.std.specs.Str.{bytes_eq};
ghost use Rattle.std.specs.BTreeSet.{insert_key};
ghost use Rattle.std.specs.Ordering.{nat_cmp};
ghost use Rattle.pt_cover.specs.Given.{rising, first_given};
ghost use Rattle.pt_cover.specs.Tallies.{line_row, name_row, names_of};

use crate::rows::{LineCount, NameCount};
use pt_base::{Dup, Line, Memory, Seq, Text};
use std::alloc::Global;
use std::collections::BTreeSet;

fn add_line(lines: &mut BTreeSet<u32>, line: u32) -> Result<(), Memory>
    ensures { OnOk result (lines.new.keys ≡ insert_key nat_cmp lines.old.keys line) }
{
    lines.insert(line)?;
    Ok(())
}

/// These lines, each once, in rising order.
#[tactic(auto, using(crate::proofs::ListLemmas::fold_drop))]
fn in_order(alloc: Global, lines: &[Line]) -> Result<BTreeSet<u32>, Memory>
    ensures { IfOk result (λ s. s.keys ≡ rising lines.now) }
{
    let mut found = BTreeSet::new(alloc);
    for line in lines {
        add_line(&mut found, line.0)?;
    }
    Ok(found)
}

fn rows_of(alloc: Global, lines: &BTreeSet<u32>) -> Result<Vec<LineCount>, Memory>
    ensures { IfOk result (λ rows. rows.items ≡ map (line_row []) lines.now.keys) }
{
    let mut rows: Vec<LineCount> = Vec::new(alloc);
    for line in lines.iter() {
        rows.push(LineCount {
            line: Line(*line),
            count: 0,
        })?;
    }
    Ok(rows)
}

/// A row for each of these lines, in rising order.
pub fn line_rows(alloc: Global, lines: &[Line]) -> Result<Seq<LineCount>, Memory>
    ensures { IfOk result (λ rows. rows ≡ map (line_row []) (rising lines.now)) }
{
    let found = in_order(alloc, lines)?;
    let rows = rows_of(alloc, &found)?;
    Ok(Seq::from_vec(rows))
}

fn has_name(rows: &[NameCount], name: &Text) -> bool
    ensures { result ≡ list_any (bytes_eq name.now) (names_of rows.now) }
{
    for row in rows {
        if name.is(row.name.as_str()) {
            return true;
        }
    }
    false
}

/// A row for each of these names, in the order in which they are first given.
#[tactic(auto, using(crate::proofs::ListLemmas::fold_drop))]
pub fn name_rows(alloc: Global, names: &[Text]) -> Result<Vec<NameCount>, Memory>
    ensures { IfOk result (λ rows. rows.items ≡ map (name_row []) (first_given names.now)) }
{
    let mut rows: Vec<NameCount> = Vec::new(alloc);
    for name in names {
        if !has_name(rows.as_slice(), name) {
            rows.push(NameCount {
                name: name.dup(alloc)?,
                calls: 0,
                own: 0,
                all: 0,
                spans: 0,
            })?;
        }
    }
    Ok(rows)
}
