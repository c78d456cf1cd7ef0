//! Where a completion that leaves a place of code goes on: the handler rows that cover the place
//! are taken off, inner rows first, until one takes the completion.
#![tactic(auto)]

mod laws;

ghost use Rattle.std.specs.Prelude.{◌≡◌, ◌&&◌, Some, find};
ghost use Rattle.pt_ranges.specs.Rows.{covers, first_over};
ghost use Rattle.pt_unwind.specs.Landings.{entry_of, landing_among, landing_of, takes, way_out};

pub use laws::a_landing_is_a_step_of_the_machine;
use pt_base::Pc;
use pt_code::CodeBlock;
use pt_heap::Completion;
use pt_ranges::{Handler, HandlerTable};

/// Where a completion goes on.
#[derive(Clone, Copy, Debug, PartialEq, Eq)]
pub enum Landing {
    /// At a handler. So many slots stay; on them comes the completion where the handler is a
    /// `finally` part or an exit, which has to pass it on, and else the exception.
    Enter {
        pc: Pc,
        depth: u32,
        holds_completion: bool,
    },
    /// At this place, with no handler between.
    Jump {
        pc: Pc,
    },
    /// Out of the block, whose activation closes.
    Out,
}

/// Whether a row takes a completion that leaves a place which it covers.
fn takes(row: Handler, how: Completion) -> bool
    ensures { result ≡ takes row how }
{
    match how {
        Completion::Normal => false,
        Completion::Raise(_) => true,
        Completion::Return(_) => row.always,
        Completion::Leave { target } => row.always && !row.covers(target),
    }
}

/// At the handler of a row.
fn enter(row: Handler) -> Landing
    ensures { result ≡ entry_of row }
{
    Landing::Enter {
        pc: row.target,
        depth: row.depth,
        holds_completion: row.always,
    }
}

/// Past all rows.
fn pass(pc: Pc, how: Completion) -> Landing
    ensures { result ≡ way_out pc how }
{
    match how {
        Completion::Normal => Landing::Jump { pc },
        Completion::Raise(_) | Completion::Return(_) => Landing::Out,
        Completion::Leave { target } => Landing::Jump { pc: target },
    }
}

/// The first of the rows that covers the place and takes the completion.
fn first_taking(rows: &[Handler], pc: Pc, how: Completion) -> Option<Handler>
    ensures { result ≡ find (λ row. covers row pc && takes row how) rows.now }
{
    rows.iter()
        .copied()
        .find(|row| row.covers(pc) && takes(*row, how))
}

/// Where a completion goes on that leaves a place of which this is the innermost row.
fn land_from(innermost: Handler, rows: &[Handler], pc: Pc, how: Completion) -> Landing
    requires { first_over rows.now pc ≡ Some innermost }
    ensures { result ≡ landing_of rows.now pc how }
{
    if takes(innermost, how) {
        return enter(innermost);
    }
    match first_taking(rows, pc, how) {
        Some(row) => enter(row),
        None => pass(pc, how),
    }
}

/// Where a completion that leaves a place goes on, in a block with the table of its handler rows
/// (Language Reference 8.4, 7.6, 7.9, 7.10). A normal completion leaves nothing.
///
/// It takes no memory, and no more time than the table's look-up where the innermost row takes it.
pub fn land(block: &CodeBlock, table: &HandlerTable, pc: Pc, how: Completion) -> Landing
    requires { table.now ≡ block.now.handlers }
    ensures { result ≡ landing_of block.now.handlers pc how }
{
    match table.handler_at(pc) {
        Some(innermost) => land_from(innermost, block.handlers.as_slice(), pc, how),
        None => pass(pc, how),
    }
}

/// The first of the rows that takes the completion.
fn first_to_take(rows: &[Handler], how: Completion) -> Option<Handler>
    ensures { result ≡ find (λ row. takes row how) rows.now }
{
    rows.iter().copied().find(|row| takes(*row, how))
}

/// The same of a place whose covering rows are known, inner rows first.
pub fn land_among(rows: &[Handler], pc: Pc, how: Completion) -> Landing
    ensures { result ≡ landing_among rows.now pc how }
{
    match first_to_take(rows, how) {
        Some(row) => enter(row),
        None => pass(pc, how),
    }
}
