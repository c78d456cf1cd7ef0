ghost use Rattle.std.specs.Prelude.{◌≡◌, [], IfOk, map};
ghost use Rattle.pt_cover.specs.Pieces.{kind_of, name_of};
ghost use Rattle.pt_cover.specs.Tallies.{name_place, names_of, names_then, changed_at, without_span};
ghost use Rattle.pt_cover.specs.Tallies.{one_call_more, one_own_more, one_span_less, one_within_more};

use crate::open_calls::OpenCalls;
use crate::pieces;
use crate::rows::{NameCount, add_call, add_own, add_within, remove_span};
use crate::told::Told;
use pt_base::Memory;
use std::alloc::Global;
use std::marker::Model;

/// What is counted of names, over the calls that are open.
#[derive(Debug, Drop)]
pub struct NameCounts {
    rows: Vec<NameCount>,
    calls: OpenCalls,
    total: u64,
}

impl Model for NameCounts {
    ghost use Rattle.pt_cover.specs.Tallies.{NameTally};

    ghost Value = { NameTally };

    ghost view = { λ t. record { rows = t.rows.items; calls = t.calls; total = t.total } };
}

/// The place of a name among the rows, or their count where it has none.
fn place(rows: &[NameCount], name: &[u8]) -> usize
    ensures { result ≡ name_place (names_of rows.now) name.now }
{
    for (at, row) in rows.iter().enumerate() {
        if row.name.as_str().as_bytes() == name {
            return at;
        }
    }
    rows.len()
}

/// Counts a call of the name at a place.
fn call(rows: &mut [NameCount], at: usize, has_span: bool)
    ensures { rows.new ≡ changed_at rows.old at (one_call_more has_span) }
{
    if at < rows.len() {
        add_call(&mut rows[at], has_span);
    }
}

/// Counts a line of a block of the name at a place.
fn begin_own(rows: &mut [NameCount], at: usize)
    ensures { rows.new ≡ changed_at rows.old at one_own_more }
{
    if at < rows.len() {
        add_own(&mut rows[at]);
    }
}

/// Counts a line within the spans that are open.
fn begin_within(rows: &mut [NameCount])
    ensures { rows.new ≡ map one_within_more rows.old }
{
    for row in rows.iter_mut() {
        add_within(row);
    }
}

/// Closes a span of the name at a place.
fn close(rows: &mut [NameCount], at: usize)
    ensures { rows.new ≡ changed_at rows.old at one_span_less }
{
    if at < rows.len() {
        remove_span(&mut rows[at]);
    }
}

impl NameCounts {
    /// Over these rows. There is room for the calls that are open.
    pub fn new(alloc: Global, rows: Vec<NameCount>) -> Result<NameCounts, Memory>
        ensures { IfOk result (λ t.
            t ≡ record { rows = rows.items; calls = record { spans = []; deeper = 0 }; total = 0 }) }
    {
        Ok(NameCounts {
            rows,
            calls: OpenCalls::new(alloc)?,
            total: 0,
        })
    }

    /// The rows.
    pub fn rows(&self) -> &[NameCount]
        ensures { result.now ≡ self.now.rows }
    {
        self.rows.as_slice()
    }

    /// How many lines were begun.
    pub fn total(&self) -> u64
        ensures { result ≡ self.now.total }
    {
        self.total
    }

    /// Counts an event.
    pub fn count(&mut self, event: &[u8])
        ensures { self.new ≡ names_then self.old (kind_of event.now) (name_of event.now) }
    {
        match pieces::kind(event) {
            Told::Call => {
                let at = place(self.rows.as_slice(), pieces::name(event));
                let has_span = self.calls.has_room();
                call(self.rows.as_mut_slice(), at, has_span);
                self.calls.add(at);
            }
            Told::Line => {
                let at = place(self.rows.as_slice(), pieces::name(event));
                begin_own(self.rows.as_mut_slice(), at);
                begin_within(self.rows.as_mut_slice());
                self.total = self.total.saturating_add(1);
            }
            Told::Return => {
                if let Some(at) = self.calls.remove() {
                    close(self.rows.as_mut_slice(), at);
                }
            }
            Told::Other => {}
        }
    }
}
