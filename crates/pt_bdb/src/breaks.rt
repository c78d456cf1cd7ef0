//! The breakpoints of a session.
ghost use Rattle.std.specs.Prelude.{◌≡◌, ◌+◌, ◌<◌, ◌≤◌, ◌↔◌, ◌++◌, ◌∷◌, false, [], IsTrue};
ghost use Rattle.std.specs.Prelude.{IfOk, IfErr, OnOk, OnErr};
ghost use Rattle.std.specs.Option.{option_copied};
ghost use Rattle.pt_bdb.specs.Breakpoints.{answer_at, has_code, new_row, no_breakpoints};
ghost use Rattle.pt_bdb.specs.Breakpoints.{IsPlace, IsSetError, row_of};
ghost use Rattle.pt_bdb.specs.Breakpoints.{with_condition, with_enabled};
ghost use Rattle.pt_bdb.specs.Breakpoints.{with_ignore, with_new, with_row, with_rows, without};
ghost use Rattle.pt_bdb.specs.Effective.{BreaksOff, HasTurns, hit_in, rows_behind};

use crate::{BreakRow, Breakpoint, Hit, Judge};
use pt_base::{Line, Memory, Seq, Text};
use std::alloc::Global;
use std::marker::Model;

/// The greatest number of a breakpoint.
pub const LAST_NUMBER: u32 = u32::MAX;

/// Why a breakpoint isn't set or changed.
#[derive(Clone, Copy, Debug, PartialEq, Eq)]
pub enum BreakErr {
    /// None has the number.
    NoBreak { number: u32 },
    /// No act stands on the line.
    NoCode { line: Line },
    Memory,
}

impl From<Memory> for BreakErr {
    ghost use Rattle.std.specs.Prelude.{◌≡◌};
    ghost use Rattle.pt_bdb.specs.declared.breaks.BreakErr.TheVariants as error;

    ghost from_gives = { λ _ e. e ≡ error.Memory };

    fn from(_: Memory) -> Self {
        BreakErr::Memory
    }
}

fn push(rows: &mut Vec<Breakpoint>, breakpoint: Breakpoint) -> Result<(), Memory>
    ensures ok { OnOk result (rows.new.items ≡ rows.old.items ++ breakpoint ∷ []) }
    ensures err { OnErr result (rows.new.items ≡ rows.old.items) }
{
    rows.push(breakpoint)?;
    Ok(())
}

/// Where the breakpoint with a number stands.
fn place_of(rows: &[Breakpoint], number: u32) -> Option<usize>
    ensures { IsPlace number rows.now result }
{
    for at in 0..rows.len() {
        if rows[at].number == number {
            return Some(at);
        }
    }
    None
}

/// Gives each breakpoint its turn at a line, up to the first that stops: where that stands.
fn first_hit<J: Judge>(
    rows: &mut [Breakpoint],
    line: Line,
    judge: &mut J,
) -> Result<Option<(usize, Hit)>, Memory>
    ensures kept { J.held judge.new ≡ J.held judge.old }
    ensures ok { IfOk result
        (HasTurns (J.verdict (J.held judge.old)) line rows.old rows.new) }
    ensures err { OnErr result
        (BreaksOff (J.verdict (J.held judge.old)) line rows.old rows.new) }
{
    for at in 0..rows.len() {
        if let Some(hit) = rows[at].turn(line, judge)? {
            return Ok(Some((at, hit)));
        }
    }
    Ok(None)
}

/// The turns of breakpoints at a line. One that goes is deleted.
fn take_turns<J: Judge>(
    rows: &mut Vec<Breakpoint>,
    line: Line,
    judge: &mut J,
) -> Result<Option<Hit>, Memory>
    ensures hit { IfOk result (λ hit.
        hit ≡ hit_in (J.verdict (J.held judge.old)) line rows.old.items) }
    ensures rows { OnOk result (rows.new.items
        ≡ rows_behind (J.verdict (J.held judge.old)) line rows.old.items) }
    ensures err { OnErr result
        (BreaksOff (J.verdict (J.held judge.old)) line rows.old.items rows.new.items) }
    ensures kept { J.held judge.new ≡ J.held judge.old }
{
    let Some((at, hit)) = first_hit(rows.as_mut_slice(), line, judge)? else {
        return Ok(None);
    };
    if hit.removed {
        rows.remove(at);
    }
    Ok(Some(hit))
}

/// The breakpoints of a session, in order of number. A number isn't given twice. Contracts see the
/// lines on which a breakpoint can stand, the breakpoints, and the last number that was given.
#[derive(Debug, Drop)]
pub struct Breaks {
    lines: Seq<Line>,
    rows: Vec<Breakpoint>,
    last: u32,
}

impl Model for Breaks {
    ghost use Rattle.pt_bdb.specs.Breakpoints.{IsOrdered, Table};

    ghost Value = { Table };

    ghost view = { λ b. record { lines = b.lines; rows = b.rows.items; last = b.last } };

    ghost invariant = { λ b. IsOrdered (record { lines = b.lines; rows = b.rows.items; last = b.last }) };
}

impl Breaks {
    /// No breakpoint, where acts stand on these lines.
    pub fn new(alloc: Global, lines: Seq<Line>) -> Breaks
        ensures { result ≡ no_breakpoints lines }
    {
        Breaks {
            lines,
            rows: Vec::new(alloc),
            last: 0,
        }
    }

    /// The breakpoints, in order of number.
    pub fn rows(&self) -> &[Breakpoint]
        ensures { result.now ≡ self.now.rows }
    {
        self.rows.as_slice()
    }

    /// Whether the greatest number has been given, so that no breakpoint can be set any more.
    pub fn is_full(&self) -> bool
        ensures { IsTrue result ↔ (LAST_NUMBER ≤ self.now.last) }
    {
        self.last >= LAST_NUMBER
    }

    /// Sets a breakpoint on a line, and answers its number, from 1.
    ///
    /// # Errors
    ///
    /// `NoCode` exactly where no act stands on the line; `Memory` for want of it. The breakpoints are
    /// then as before.
    pub fn set(
        &mut self,
        line: Line,
        temporary: bool,
        condition: Option<Text>,
    ) -> Result<u32, BreakErr>
        requires { self.old.last < LAST_NUMBER }
        ensures number { IfOk result (λ number. number ≡ self.old.last + 1) }
        ensures ok { OnOk result
            (self.new ≡ with_new (new_row line temporary condition) self.old) }
        ensures no_code { (result ≡ Err (BreakErr.NoCode line))
            ↔ (has_code self.old line ≡ false) }
        ensures only { IfErr result (IsSetError line) }
        ensures err { OnErr result (self.new ≡ self.old) }
    {
        if !self.lines.as_slice().contains(&line) {
            return Err(BreakErr::NoCode { line });
        }
        let number = self.last + 1;
        let row = BreakRow {
            line,
            temporary,
            enabled: true,
            condition,
            ignore: 0,
            hits: 0,
        };
        push(&mut self.rows, Breakpoint { number, row })?;
        self.last = number;
        Ok(number)
    }

    /// Deletes a breakpoint.
    ///
    /// # Errors
    ///
    /// `NoBreak` exactly where none has the number.
    pub fn clear(&mut self, number: u32) -> Result<(), BreakErr>
        ensures answer { result ≡ answer_at number self.old.rows }
        ensures new { self.new ≡ with_rows (without number self.old.rows) self.old }
    {
        let Some(at) = place_of(self.rows.as_slice(), number) else {
            return Err(BreakErr::NoBreak { number });
        };
        self.rows.remove(at);
        Ok(())
    }

    /// Deletes all breakpoints.
    pub fn clear_all(&mut self)
        ensures { self.new ≡ with_rows [] self.old }
    {
        self.rows.clear();
    }

    /// Switches a breakpoint on or off.
    ///
    /// # Errors
    ///
    /// `NoBreak` exactly where none has the number.
    pub fn enable(&mut self, number: u32, on: bool) -> Result<(), BreakErr>
        ensures answer { result ≡ answer_at number self.old.rows }
        ensures new { self.new
            ≡ with_rows (with_row number (with_enabled on) self.old.rows) self.old }
    {
        let Some(at) = place_of(self.rows.as_slice(), number) else {
            return Err(BreakErr::NoBreak { number });
        };
        self.rows[at].row.enabled = on;
        Ok(())
    }

    /// Gives a breakpoint a condition, or takes it.
    ///
    /// # Errors
    ///
    /// `NoBreak` exactly where none has the number.
    pub fn condition(&mut self, number: u32, text: Option<Text>) -> Result<(), BreakErr>
        ensures answer { result ≡ answer_at number self.old.rows }
        ensures new { self.new
            ≡ with_rows (with_row number (with_condition text) self.old.rows) self.old }
    {
        let Some(at) = place_of(self.rows.as_slice(), number) else {
            return Err(BreakErr::NoBreak { number });
        };
        self.rows[at].row.condition = text;
        Ok(())
    }

    /// How many crossings of a breakpoint are to be ignored.
    ///
    /// # Errors
    ///
    /// `NoBreak` exactly where none has the number.
    pub fn ignore(&mut self, number: u32, count: u64) -> Result<(), BreakErr>
        ensures answer { result ≡ answer_at number self.old.rows }
        ensures new { self.new
            ≡ with_rows (with_row number (with_ignore count) self.old.rows) self.old }
    {
        let Some(at) = place_of(self.rows.as_slice(), number) else {
            return Err(BreakErr::NoBreak { number });
        };
        self.rows[at].row.ignore = count;
        Ok(())
    }

    /// The row of a breakpoint.
    pub fn row(&self, number: u32) -> Option<&BreakRow>
        ensures { option_copied result ≡ row_of number self.now.rows }
    {
        match place_of(self.rows.as_slice(), number) {
            Some(at) => Some(&self.rows[at].row),
            None => None,
        }
    }

    /// Which breakpoint stops at a line: the enabled ones on it have their turns in order of number.
    ///
    /// # Errors
    ///
    /// `Memory` for want of it as a condition is judged. The breakpoint has its hit then.
    pub fn effective<J: Judge>(&mut self, line: Line, judge: &mut J) -> Result<Option<Hit>, Memory>
        ensures hit { IfOk result (λ hit.
            hit ≡ hit_in (J.verdict (J.held judge.old)) line self.old.rows) }
        ensures rows { OnOk result (self.new
            ≡ with_rows (rows_behind (J.verdict (J.held judge.old)) line self.old.rows) self.old) }
        ensures err { OnErr result
            (BreaksOff (J.verdict (J.held judge.old)) line self.old.rows self.new.rows) }
        ensures others { self.new ≡ with_rows self.new.rows self.old }
        ensures kept { J.held judge.new ≡ J.held judge.old }
    {
        take_turns(&mut self.rows, line, judge)
    }
}
