//! Classes are made (Language Reference 8.8): their body runs in names of its own, of which they are
//! made then.
ghost use Rattle.std.specs.Prelude.{◌≡◌, ◌++◌, IfOk, OnOk, if◌then◌else◌};
ghost use Rattle.std.specs.Str.{bytes_eq};
ghost use Rattle.pt_class_rows.specs.Classes.{OpensBody, RowsClass, next_number, own_cells};
ghost use Rattle.pt_function_rows.specs.pt_code_facts.Facts.{facts_view};
ghost use Rattle.pt_frames.specs.Slots.{active_in};
ghost use Rattle.pt_moves.specs.sem_rows.pt_host.Classes.{cell_if, with_own_cell};
ghost use Rattle.pt_moves.specs.sem_rows.pt_host.World.{class_variable};

use pt_base::{BlockId, Memory, Seq, Text};
use pt_bind::Locals;
use pt_frames::{Purpose, Slots};
use pt_function_rows::{BlockFacts, Blocks, is_among, open, take_cells};
use pt_heap::Value;
use pt_moves::{Progress, take_one};
use std::alloc::Global;

/// The most cells that are kept.
const CELL_LIMIT: usize = 4_294_967_295;

/// The number of the cell of a name that the body of a class takes along: that of the class has
/// another one.
fn own_number(name: &str, cell: u32, along: u32) -> u32
    ensures { result ≡ (if bytes_eq name.now class_variable then cell else along) }
{
    if name == ".class" { cell } else { along }
}

/// The numbers of the cells that the body of a class takes along, with another one for the class
/// that `super` is called for.
#[tactic(auto, using(crate::proofs::ClassLemmas::own_next, crate::proofs::ClassLemmas::own_end, crate::proofs::ClassLemmas::own_names_end))]
fn with_own_cell(
    alloc: Global,
    cell: u32,
    frees: &[Text],
    along: &[u32],
) -> Result<Seq<u32>, Memory>
    ensures { IfOk result (λ numbers. numbers ≡ with_own_cell cell frees.now along.now) }
{
    let mut numbers = Seq::new(alloc);
    for at in 0..frees.len() {
        if at >= along.len() {
            return Ok(numbers);
        }
        numbers.push(own_number(frees[at].as_str(), cell, along[at]))?;
    }
    Ok(numbers)
}

/// The number of the cell behind those of a block. Where 2^32 - 1 cells are there it answers Memory.
fn next_number(facts: &BlockFacts, cells: &Seq<Option<Value>>) -> Result<u32, Memory>
    ensures { IfOk result (λ number. number ≡ next_number facts.now cells.now) }
{
    let count = facts.cells.len();
    if count >= CELL_LIMIT || cells.len() >= CELL_LIMIT - count {
        return Err(Memory);
    }
    Ok((cells.len() + count) as u32)
}

/// Makes the cell of a class, if a function in its body may ask for it.
#[tactic(auto, using(crate::proofs::ClassLemmas::no_more))]
fn make_own_cell(
    facts: &BlockFacts,
    number: u32,
    cells: &mut Seq<Option<Value>>,
) -> Result<Option<u32>, Memory>
    ensures cell { IfOk result (λ cell. cell ≡ cell_if (facts_view facts.now) number) }
    ensures cells { OnOk result (cells.new ≡ cells.old ++ own_cells facts.now) }
{
    if is_among(facts.frees.as_slice(), ".class") {
        cells.push(None)?;
        return Ok(Some(number));
    }
    Ok(None)
}

/// What the body of a class begins with, and the number of the cell of the class, if it has one.
#[tactic(auto, using(crate::proofs::ClassLemmas::opens_so))]
fn open_body(
    alloc: Global,
    facts: &BlockFacts,
    along: &[u32],
    cells: &mut Seq<Option<Value>>,
) -> Result<(Locals, Option<u32>), Memory>
    ensures { IfOk result
        (λ r. OpensBody facts.now along.now cells.old r.0 r.1 cells.new) }
{
    let number = next_number(facts, cells)?;
    let along = with_own_cell(alloc, number, facts.frees.as_slice(), along)?;
    let locals = open(alloc, facts, &[], along.as_slice(), cells)?;
    let cell = make_own_cell(facts, number, cells)?;
    Ok((locals, cell))
}

/// The body of a class on a base runs, and the class is made of its names then.
#[tactic(auto, using(crate::proofs::ClassLemmas::class_row, crate::proofs::ClassLemmas::lacks_cells, crate::proofs::ClassLemmas::lacks_base))]
pub fn make_class(
    alloc: Global,
    block: BlockId,
    captures: usize,
    hidden: bool,
    blocks: &Blocks,
    cells: &mut Seq<Option<Value>>,
    slots: &mut Slots,
) -> Result<Progress, Memory>
    ensures row { IfOk result
        (λ p. RowsClass blocks.now captures hidden block slots.old cells.old p slots.new cells.new) }
    ensures active { OnOk result (active_in slots.new ≡ active_in slots.old) }
{
    let Some(along) = take_cells(alloc, captures, slots)? else {
        return Ok(Progress::Lacks);
    };
    let Some(base) = take_one(slots) else {
        return Ok(Progress::Lacks);
    };
    let facts = blocks.get(block, hidden);
    let (locals, cell) = open_body(alloc, facts, along.as_slice(), cells)?;
    Ok(Progress::Calls {
        block,
        hidden,
        locals,
        why: Purpose::Class { base, cell },
    })
}
