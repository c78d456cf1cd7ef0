//! The innermost handler row of each place of a block.
ghost use Rattle.std.specs.Prelude.{◌≡◌, ◌+◌, ◌<◌, ◌≤◌, List, length, Option, IfOk};
ghost use Rattle.pt_ranges.specs.declared.handlers.Handler.{Handler};
ghost use Rattle.pt_ranges.specs.Rows.{first_over};
ghost use Rattle.pt_places.specs.Innermost.{AllFilled, HasFirst, HasSkips, IsPut, filled, first_left};

use pt_base::{Memory, Pc, Seq};
use pt_ranges::Handler;
use std::alloc::Global;
use std::marker::Model;

/// The first row over each place, as rows are put in.
#[derive(Drop)]
struct Filling {
    table: Vec<Option<Handler>>,
    /// For each place one from it on; all between have a row.
    skips: Vec<usize>,
}

impl Filling {
    /// Passes over places with a row, from one on. What it comes to may have one too.
    #[tactic(auto, using(crate::proofs::InnermostLemmas::passes, crate::proofs::InnermostLemmas::fills_none))]
    fn pass(&mut self, from: usize) -> usize
        requires inside { from ≤ length self.old.table.items }
        requires skips { HasSkips self.old.table.items self.old.skips.items }
        ensures table { self.new.table.items ≡ self.old.table.items }
        ensures skips { HasSkips self.old.table.items self.new.skips.items }
        ensures low { from ≤ result }
        ensures high { result ≤ length self.old.table.items }
        ensures filled { AllFilled self.old.table.items from result }
    {
        let mut at = from;
        while self.skips[at] > at {
            let behind = self.skips[self.skips[at]];
            self.skips[at] = behind;
            at = behind;
        }
        at
    }

    /// Gives a place a row, unless it has one.
    fn fill(&mut self, at: usize, row: Handler)
        requires inside { at < length self.old.table.items }
        requires skips { HasSkips self.old.table.items self.old.skips.items }
        ensures table { self.new.table.items ≡ filled self.old.table.items at row }
        ensures skips { HasSkips self.new.table.items self.new.skips.items }
    {
        self.table[at] = self.table[at].or(Some(row));
        self.skips[at] = at + 1;
    }

    /// Puts a row in, behind all those before it.
    #[tactic(auto, using(crate::proofs::InnermostLemmas::put_nowhere, crate::proofs::InnermostLemmas::put_begins, crate::proofs::InnermostLemmas::put_goes_on, crate::proofs::InnermostLemmas::put_ends))]
    fn put(&mut self, row: Handler)
        requires skips { HasSkips self.old.table.items self.old.skips.items }
        ensures put { IsPut row self.old.table.items self.new.table.items }
        ensures skips { HasSkips self.new.table.items self.new.skips.items }
    {
        let count = self.table.len();
        let start = row.from.0 as usize;
        if start >= count {
            return;
        }
        let end = count.min(row.to.0 as usize);
        let mut at = self.pass(start);
        while at < end {
            self.fill(at, row);
            at = self.pass(at + 1);
        }
    }
}

/// Skips over no place, for a table of so many.
#[tactic(auto, using(crate::proofs::InnermostLemmas::counted_more, crate::proofs::InnermostLemmas::skips_over_none))]
fn no_skips(alloc: Global, count: usize) -> Result<Vec<usize>, Memory>
    ensures { IfOk result
        (λ skips. (table : List (Option Handler)) → length table ≡ count
        → HasSkips table skips.items) }
{
    let mut skips = Vec::new(alloc);
    for place in 0..count {
        skips.push(place)?;
    }
    skips.push(count)?;
    Ok(skips)
}

/// The first row over each place below a count.
#[tactic(auto, using(crate::proofs::InnermostLemmas::no_rows_yet))]
fn first_by_place(
    alloc: Global,
    rows: &[Handler],
    count: usize,
) -> Result<Vec<Option<Handler>>, Memory>
    ensures { IfOk result (λ table. HasFirst rows.now table.items) }
{
    let mut filling = Filling {
        table: vec![in alloc; None; count]?,
        skips: no_skips(alloc, count)?,
    };
    for row in rows {
        filling.put(*row);
    }
    let Filling { table, skips: _ } = filling;
    Ok(table)
}

fn first_in(rows: &[Handler], pc: Pc) -> Option<Handler>
    ensures { result ≡ first_over rows.now pc }
{
    rows.iter().copied().find(|row| row.covers(pc))
}

/// Handler rows, inner rows first, with the first one over each place of a block found once.
#[derive(Debug, Drop)]
pub struct InnermostRows {
    rows: Seq<Handler>,
    table: Vec<Option<Handler>>,
}

impl Model for InnermostRows {
    ghost use Rattle.std.specs.Prelude.{List};
    ghost use Rattle.pt_ranges.specs.declared.handlers.Handler.{Handler};
    ghost use Rattle.pt_places.specs.Innermost.{HasFirst};

    ghost Value = { List Handler };

    ghost view = { λ t. t.rows };

    ghost invariant = { λ t. HasFirst t.rows t.table.items };
}

impl InnermostRows {
    /// The rows of a block with so many bytes. It takes time about linear in both, however many
    /// places a row covers and however many rows a place has.
    pub fn build(alloc: Global, rows: &[Handler], count: usize) -> Result<InnermostRows, Memory>
        ensures { IfOk result (λ t. t ≡ rows.now) }
    {
        let count = if rows.is_empty() { 0 } else { count };
        let table = first_by_place(alloc, rows, count)?;
        let rows = Seq::from_slice(alloc, rows)?;
        Ok(InnermostRows { rows, table })
    }

    /// The first row that covers a place, in constant time where the block has the place.
    pub fn first(&self, pc: Pc) -> Option<Handler>
        ensures { result ≡ first_over self.now pc }
    {
        match self.table.get(pc.0 as usize) {
            Some(row) => *row,
            None => first_in(self.rows.as_slice(), pc),
        }
    }

    /// The first row that covers a place and not another one. All rows may be looked at.
    pub fn first_left(&self, pc: Pc, target: Pc) -> Option<Handler>
        ensures { result ≡ first_left self.now pc target }
    {
        self.rows
            .as_slice()
            .iter()
            .copied()
            .find(|row| row.covers(pc) && !row.covers(target))
    }
}
