//! What the names of a block begin with where it is called.
ghost use Rattle.std.specs.Prelude.{◌≡◌, ◌++◌, ◌∷◌, [], length, IfOk, OnOk};
ghost use Rattle.std.specs.Map.{lookup};
ghost use Rattle.std.specs.Str.{bytes_eq};
ghost use Rattle.pt_bind.specs.NameSets.{is_among};
ghost use Rattle.pt_function_rows.specs.Openings.{first_values_of, first_value_of, given_cells, numbers_from, parameter_value};
ghost use Rattle.pt_moves.specs.sem_rows.pt_host.Calls.{parameters_given};

use pt_base::{Memory, Seq, Text};
use pt_bind::Locals;
use pt_code_facts::BlockFacts;
use pt_heap::Value;
use std::alloc::Global;

/// The most cells that are kept.
const CELL_LIMIT: usize = 4_294_967_295;

/// Whether a name is one of a list.
pub fn is_among(names: &[Text], name: &str) -> bool
    ensures { result ≡ is_among names.now name.now }
{
    for listed in names {
        if name == listed.as_str() {
            return true;
        }
    }
    false
}

/// What a name of a list is given, if it stands there and something is given at its place.
#[tactic(auto, using(crate::proofs::OpeningLemmas::given_found, crate::proofs::OpeningLemmas::given_next, crate::proofs::OpeningLemmas::values_end, crate::proofs::OpeningLemmas::names_end))]
fn given(names: &[Text], values: &[Option<Value>], name: &str) -> Option<Option<Value>>
    ensures { result ≡ lookup (bytes_eq name.now) (parameters_given names.now values.now) }
{
    for at in 0..names.len() {
        if at >= values.len() {
            return None;
        }
        if name == names[at].as_str() {
            return Some(values[at]);
        }
    }
    None
}

/// The value of the parameter of this name, if there is one and it has a value.
fn parameter_value(locals: &[Text], values: &[Option<Value>], name: &str) -> Option<Value>
    ensures { result ≡ parameter_value locals.now values.now name.now }
{
    match given(locals, values, name) {
        Some(value) => value,
        None => None,
    }
}

/// What a local name begins with: a parameter that has a cell has its value there.
fn first_value(facts: &BlockFacts, values: &[Option<Value>], name: &str) -> Option<Value>
    ensures { result ≡ first_value_of facts.now values.now name.now }
{
    if is_among(facts.cells.as_slice(), name) {
        None
    } else {
        parameter_value(facts.locals.as_slice(), values, name)
    }
}

/// What the local names of a block begin with.
fn first_values(
    alloc: Global,
    facts: &BlockFacts,
    values: &[Option<Value>],
) -> Result<Seq<Option<Value>>, Memory>
    ensures { IfOk result (λ firsts. firsts ≡ first_values_of facts.now values.now facts.now.locals) }
{
    let mut firsts = Seq::new(alloc);
    for name in facts.locals.as_slice() {
        firsts.push(first_value(facts, values, name.as_str()))?;
    }
    Ok(firsts)
}

/// Makes a cell behind the others, and puts its number behind numbers. Where 2^32 - 1 cells are
/// there it answers Memory.
fn make_cell(
    cells: &mut Seq<Option<Value>>,
    numbers: &mut Seq<u32>,
    value: Option<Value>,
) -> Result<(), Memory>
    ensures cells { OnOk result (cells.new ≡ cells.old ++ value ∷ []) }
    ensures numbers { OnOk result (numbers.new ≡ numbers.old ++ length cells.old ∷ []) }
{
    let number = cells.len();
    if number >= CELL_LIMIT {
        return Err(Memory);
    }
    cells.push(value)?;
    numbers.push(number as u32)
}

/// Makes the cells of a block's cell names behind the others, and answers their numbers.
#[tactic(auto, using(crate::proofs::OpeningLemmas::numbers_next, crate::proofs::OpeningLemmas::cells_next, crate::proofs::OpeningLemmas::numbers_end, crate::proofs::OpeningLemmas::cells_end))]
fn make_cells(
    alloc: Global,
    facts: &BlockFacts,
    values: &[Option<Value>],
    cells: &mut Seq<Option<Value>>,
) -> Result<Seq<u32>, Memory>
    ensures numbers { IfOk result
        (λ numbers. numbers ≡ numbers_from (length cells.old) facts.now.cells) }
    ensures cells { OnOk result
        (cells.new ≡ cells.old ++ given_cells facts.now values.now facts.now.cells) }
{
    let mut numbers = Seq::new(alloc);
    for name in facts.cells.as_slice() {
        let value = parameter_value(facts.locals.as_slice(), values, name.as_str());
        make_cell(cells, &mut numbers, value)?;
    }
    Ok(numbers)
}

/// Puts numbers behind numbers.
fn append(numbers: &mut Seq<u32>, others: &[u32]) -> Result<(), Memory>
    ensures { OnOk result (numbers.new ≡ numbers.old ++ others.now) }
{
    for number in others {
        numbers.push(*number)?;
    }
    Ok(())
}

/// What the names of a block begin with where its parameters have these values and a function takes
/// these cells along. The cells of its own are made.
pub fn open(
    alloc: Global,
    facts: &BlockFacts,
    values: &[Option<Value>],
    along: &[u32],
    cells: &mut Seq<Option<Value>>,
) -> Result<Locals, Memory>
    ensures values { IfOk result
        (λ locals. locals.values ≡ first_values_of facts.now values.now facts.now.locals) }
    ensures numbers { IfOk result
        (λ locals. locals.cells
        ≡ numbers_from (length cells.old) facts.now.cells ++ along.now) }
    ensures cells { OnOk result
        (cells.new ≡ cells.old ++ given_cells facts.now values.now facts.now.cells) }
{
    let firsts = first_values(alloc, facts, values)?;
    let mut numbers = make_cells(alloc, facts, values, cells)?;
    append(&mut numbers, along)?;
    Ok(Locals {
        values: firsts,
        star: Seq::new(alloc),
        stars: Seq::new(alloc),
        cells: numbers,
    })
}
