ghost use Rattle.std.specs.Prelude.{◌≡◌, ◌+◌, ◌<◌, ◌^◌, length, drop, IfOk};
ghost use Rattle.pt_ranges.specs.Rows.{first_over};

use pt_base::{Memory, Pc, Seq};
use std::alloc::Global;
use std::marker::Model;

/// A row of a handler table: what becomes of a completion that leaves a covered place.
#[derive(Clone, Copy, Debug, PartialEq, Eq)]
pub struct Handler {
    /// The first place that it covers.
    pub from: Pc,
    /// The place behind the last that it covers.
    pub to: Pc,
    pub target: Pc,
    /// How many slots stay.
    pub depth: u32,
    /// It takes every completion, and not raises alone.
    pub always: bool,
}

impl Handler {
    ghost use Rattle.std.specs.Prelude.{◌≡◌};
    ghost use Rattle.pt_ranges.specs.Rows.{covers};

    /// The place is one of those that the row covers.
    pub fn covers(&self, pc: Pc) -> bool
        ensures { result ≡ covers self.now pc }
    {
        self.from.0 <= pc.0 && pc.0 < self.to.0
    }
}

/// The handler rows of a block, inner rows first.
#[derive(Debug, Drop)]
pub struct HandlerTable {
    rows: Seq<Handler>,
}

impl Model for HandlerTable {
    ghost use Rattle.std.specs.Prelude.{List, ◌<◌, ◌^◌, length};
    ghost use Rattle.pt_ranges.specs.declared.handlers.Handler.{Handler};

    ghost Value = { List Handler };

    ghost view = { λ t. t.rows };

    ghost invariant = { λ t. length t.rows < 2 ^ 32 };
}

impl HandlerTable {
    /// The table of these rows, of which each has a number from 0.
    pub fn build(alloc: Global, rows: &[Handler]) -> Result<HandlerTable, Memory>
        requires { length rows.now < 2 ^ 32 }
        ensures { IfOk result (λ t. t ≡ rows.now) }
    {
        let rows = Seq::from_slice(alloc, rows)?;
        Ok(HandlerTable { rows })
    }

    /// The first row that covers a place.
    pub fn handler_at(&self, pc: Pc) -> Option<Handler>
        ensures { result ≡ first_over self.now pc }
    {
        first_in(self.rows.as_slice(), pc)
    }

    /// The first row behind the one with this number that covers a place.
    pub fn outer_of(&self, row: u32, pc: Pc) -> Option<Handler>
        ensures { result ≡ first_over (drop (row + 1) self.now) pc }
    {
        let rows = self.rows.as_slice();
        let behind = row as usize + 1;
        if behind < rows.len() {
            first_in(&rows[behind..], pc)
        } else {
            None
        }
    }
}

fn first_in(rows: &[Handler], pc: Pc) -> Option<Handler>
    ensures { result ≡ first_over rows.now pc }
{
    rows.iter().copied().find(|row| row.covers(pc))
}
