//! What `super` gives where it is called without arguments (Library Reference, `super`).
ghost use Rattle.std.specs.Prelude.{◌≡◌, ◌++◌, drop, IfOk, OnOk};
ghost use Rattle.std.specs.Map.{lookup};
ghost use Rattle.std.specs.Str.{bytes_eq};
ghost use Rattle.pt_class_rows.specs.Calls.{running};
ghost use Rattle.pt_class_rows.specs.Supers.{GivesSuper, GivesSuperBy, GivesSuperOf};
ghost use Rattle.pt_class_rows.specs.Supers.{class_around, first_value, in_cell, last_from, value_here};
ghost use Rattle.pt_frames.specs.Slots.{active_in};
ghost use Rattle.pt_moves.specs.sem_rows.heap_rows.Views.{paired};
ghost use Rattle.pt_moves.specs.sem_rows.pt_host.Supers.{may_have_super};
ghost use Rattle.pt_names.specs.Names.{name_value};
ghost use Rattle.pt_heap.specs.declared.value.Value.TheVariants.{Obj};

use crate::objects::{are_none, bad_argument, place};
use pt_base::{Memory, ObjId, Seq, Text, What};
use pt_bind::Args;
use pt_content::class_at;
use pt_frames::Slots;
use pt_function_rows::{BlockFacts, is_among};
use pt_heap::{Heap, Object, Super, Value};
use pt_moves::{Progress, RUNTIME_ERROR, TYPE_ERROR, class_of, is_of};
use pt_names::Names;
use std::alloc::Global;

/// What stands in the cell of a number.
fn in_cell(cells: &Seq<Option<Value>>, number: Option<u32>) -> Option<Value>
    ensures { result ≡ in_cell cells.now number }
{
    match number {
        Some(number) => match cells.get(number as usize) {
            Some(value) => *value,
            None => None,
        },
        None => None,
    }
}

/// The number of the first of names that is this one, as far as there are numbers.
#[tactic(auto, using(crate::proofs::NameLemmas::number_found, crate::proofs::NameLemmas::number_next, crate::proofs::NameLemmas::numbers_end, crate::proofs::NameLemmas::names_end))]
fn first_number(name: &str, names: &[Text], numbers: &[u32]) -> Option<u32>
    ensures { result ≡ lookup (bytes_eq name.now) (paired names.now numbers.now) }
{
    for at in 0..names.len() {
        if at >= numbers.len() {
            return None;
        }
        if name == names[at].as_str() {
            return Some(numbers[at]);
        }
    }
    None
}

/// The number of the last of names that is this one, as far as there are numbers, or that of one
/// before them.
#[tactic(auto, using(crate::proofs::NameLemmas::last_found, crate::proofs::NameLemmas::last_next, crate::proofs::NameLemmas::last_end, crate::proofs::NameLemmas::last_names_end))]
fn last_number(before: Option<u32>, name: &str, names: &[Text], numbers: &[u32]) -> Option<u32>
    ensures { result ≡ last_from before name.now names.now numbers.now }
{
    let mut found = before;
    for at in 0..names.len() {
        if at >= numbers.len() {
            return found;
        }
        if name == names[at].as_str() {
            found = Some(numbers[at]);
        }
    }
    found
}

/// The numbers behind so many.
#[tactic(auto, using(crate::proofs::NameLemmas::past))]
fn numbers_behind(numbers: &[u32], count: usize) -> &[u32]
    ensures { result.now ≡ drop count numbers.now }
{
    if count <= numbers.len() {
        &numbers[count..]
    } else {
        &[]
    }
}

/// The value of a name among the local names and those of a class.
#[tactic(auto, using(crate::proofs::NameLemmas::value_found, crate::proofs::NameLemmas::value_next, crate::proofs::NameLemmas::values_end, crate::proofs::NameLemmas::value_names_end))]
fn local_value(name: &str, names: &[Text], values: &[Option<Value>], own: &Names) -> Option<Value>
    ensures { result ≡ name_value name.now (paired names.now values.now ++ own.now) }
{
    for at in 0..names.len() {
        if at >= values.len() {
            return own.get(name);
        }
        if name == names[at].as_str() {
            return values[at];
        }
    }
    own.get(name)
}

/// The class in whose body a block stands, if it has that.
#[tactic(auto, using(crate::proofs::NameLemmas::class_found, crate::proofs::NameLemmas::no_class))]
fn class_around(
    facts: &BlockFacts,
    locals: &Seq<Option<Value>>,
    numbers: &Seq<u32>,
    own: &Names,
    cells: &Seq<Option<Value>>,
) -> Option<Value>
    ensures { result ≡ class_around (running facts.now locals.now numbers.now own.now) cells.now }
{
    if !is_among(facts.frees.as_slice(), ".class") {
        return None;
    }
    let all = numbers.as_slice();
    let found = last_number(None, ".class", facts.cells.as_slice(), all);
    let along = numbers_behind(all, facts.cells.len());
    let number = last_number(found, ".class", facts.frees.as_slice(), along);
    in_cell(cells, number)
}

/// The value of a parameter. One that another block reads stands in a cell.
fn value_here(
    name: &str,
    facts: &BlockFacts,
    locals: &Seq<Option<Value>>,
    numbers: &Seq<u32>,
    own: &Names,
    cells: &Seq<Option<Value>>,
) -> Option<Value>
    ensures { result
        ≡ value_here (running facts.now locals.now numbers.now own.now) cells.now name.now }
{
    if is_among(facts.cells.as_slice(), name) {
        let number = first_number(name, facts.cells.as_slice(), numbers.as_slice());
        return in_cell(cells, number);
    }
    local_value(name, facts.locals.as_slice(), locals.as_slice(), own)
}

/// The value of the first parameter of a block, if it has one.
#[tactic(auto, using(crate::proofs::NameLemmas::first_parameter, crate::proofs::NameLemmas::no_parameter))]
fn first_value(
    facts: &BlockFacts,
    locals: &Seq<Option<Value>>,
    numbers: &Seq<u32>,
    own: &Names,
    cells: &Seq<Option<Value>>,
) -> Option<Value>
    ensures { result ≡ first_value (running facts.now locals.now numbers.now own.now) cells.now }
{
    match facts.params.plain.get(0) {
        Some(name) => value_here(name.as_str(), facts, locals, numbers, own, cells),
        None => None,
    }
}

/// Whether a value is an instance of a class, or a class that is this one or is made on it.
fn may_have_super(heap: &Heap, class: ObjId, receiver: Value) -> bool
    ensures { result ≡ may_have_super heap.now (Obj class) receiver }
{
    let of = class_of(heap, receiver);
    is_of(heap, of, Value::Obj(class)) || is_of(heap, receiver, Value::Obj(class))
}

/// Gives what is above a class for a value.
#[tactic(auto, using(crate::proofs::SuperLemmas::super_given, crate::proofs::SuperLemmas::no_super, crate::proofs::SuperLemmas::no_class))]
fn super_of(
    alloc: Global,
    class: ObjId,
    receiver: Value,
    slots: &mut Slots,
    heap: &mut Heap,
) -> Result<Progress, Memory>
    ensures row { IfOk result
        (λ p. GivesSuperOf class receiver slots.old heap.old p slots.new heap.new) }
    ensures active { OnOk result (active_in slots.new ≡ active_in slots.old) }
{
    if class_at(heap, class).is_none() {
        return bad_argument(alloc, RUNTIME_ERROR);
    }
    if !may_have_super(heap, class, receiver) {
        return bad_argument(alloc, TYPE_ERROR);
    }
    place(Object::Super(Super { class, receiver }), slots, heap)
}

/// The same by what stands in the cell of the class, and by the value of the first parameter.
#[tactic(auto, using(crate::proofs::SuperLemmas::by_class, crate::proofs::SuperLemmas::nothing_above))]
fn super_by(
    alloc: Global,
    class: Option<Value>,
    receiver: Option<Value>,
    slots: &mut Slots,
    heap: &mut Heap,
) -> Result<Progress, Memory>
    ensures row { IfOk result
        (λ p. GivesSuperBy class receiver slots.old heap.old p slots.new heap.new) }
    ensures active { OnOk result (active_in slots.new ≡ active_in slots.old) }
{
    match (class, receiver) {
        (Some(Value::Obj(class)), Some(receiver)) => {
            super_of(alloc, class, receiver, slots, heap)
        }
        _ => bad_argument(alloc, RUNTIME_ERROR),
    }
}

/// Gives what a call of `super` without arguments gives.
#[tactic(auto, using(crate::proofs::SuperLemmas::super_called, crate::proofs::SuperLemmas::arguments_given))]
pub fn make_super(
    alloc: Global,
    args: &Args,
    facts: &BlockFacts,
    locals: &Seq<Option<Value>>,
    numbers: &Seq<u32>,
    own: &Names,
    cells: &Seq<Option<Value>>,
    slots: &mut Slots,
    heap: &mut Heap,
) -> Result<Progress, Memory>
    ensures row { IfOk result
        (λ p. GivesSuper (running facts.now locals.now numbers.now own.now) args.now slots.old
        cells.now heap.old p slots.new heap.new) }
    ensures active { OnOk result (active_in slots.new ≡ active_in slots.old) }
{
    if !are_none(args) {
        return Ok(Progress::Outside {
            what: What::Feature,
        });
    }
    let class = class_around(facts, locals, numbers, own, cells);
    let receiver = first_value(facts, locals, numbers, own, cells);
    super_by(alloc, class, receiver, slots, heap)
}
