ghost use Rattle.std.specs.Prelude.{◌≡◌, ◌++◌, ◌∷◌, [], None, IfOk, OnOk, map};
ghost use Rattle.pt_frames.specs.Activations.{new_activation};
ghost use Rattle.pt_heap.specs.declared.object.Object.TheVariants.{Str};
ghost use Rattle.pt_builtin_objects.specs.Start.{start_objects};
ghost use Rattle.pt_helper_objects.specs.Objects.{helper_objects, object_of};
ghost use Rattle.pt_code_loader.specs.Starting.{Begins, cell_numbers, objects_by, stands_as, stands_in};
ghost use Rattle.pt_code_tables.specs.pt_machine_state.Changes.{slots_at_start};

use crate::Loaded;
use pt_base::{BlockId, Dup, Memory, Seq, Text};
use pt_bind::Locals;
use pt_code_facts::{BlockFacts, Blocks as Facts};
use pt_code_tables::{Machine, Standing};
use pt_frames::{Frames, Slot, Slots};
use pt_heap::{Heap, Object, Seed, Str as HeapStr, Value};
use pt_helper_objects::{HELPERS, HelperKind, object_of};
use pt_prelude::block;
use std::alloc::Global;

/// Puts an object behind the others of a heap.
fn add_object(heap: &mut Heap, object: Object) -> Result<(), Memory>
    ensures { OnOk result (heap.new ≡ heap.old ++ object ∷ []) }
{
    match heap.add(object) {
        Ok(_) => Ok(()),
        Err(_) => Err(Memory),
    }
}

/// Puts an object for a text behind the others of a heap.
fn add_text(alloc: Global, heap: &mut Heap, text: &Text) -> Result<(), Memory>
    ensures { OnOk result (heap.new ≡ heap.old ++ Str text.now ∷ []) }
{
    let text = text.dup(alloc)?;
    add_object(heap, Object::Str(HeapStr::new(text)))
}

fn start_objects(alloc: Global, seed: Seed) -> Result<Heap, Memory>
    ensures { IfOk result (λ heap. heap ≡ start_objects) }
{
    pt_builtin_objects::start(alloc, seed).map_err(|_| Memory)
}

/// Whether a function of the prelude stands: its block takes no cells along.
fn stands(facts: &Facts, kind: HelperKind) -> bool
    ensures { result ≡ stands_as facts.now kind }
{
    match kind {
        HelperKind::Function(helper) => match block(helper) {
            Some(block) => facts.get(block, true).frees.len() == 0,
            None => false,
        },
        HelperKind::EmptyTuple | HelperKind::Primitive(_) => false,
    }
}

/// The object of a row behind the builtin objects.
#[tactic(auto, using(crate::proofs::StartLemmas::object_stands))]
fn helper_object(
    alloc: Global,
    seed: Seed,
    facts: &Facts,
    kind: HelperKind,
) -> Result<Object, Memory>
    ensures { IfOk result (λ object. object ≡ object_of (stands_in facts.now) kind) }
{
    object_of(alloc, seed, stands(facts, kind), kind)
}

/// Puts the objects of rows behind those of a heap.
fn add_helpers(
    alloc: Global,
    seed: Seed,
    facts: &Facts,
    rows: &[(&str, HelperKind)],
    heap: &mut Heap,
) -> Result<(), Memory>
    ensures { OnOk result
        (heap.new ≡ heap.old ++ objects_by facts.now (map (λ r. (r.0.now, r.1)) rows.now)) }
{
    for row in rows {
        let object = helper_object(alloc, seed, facts, row.1)?;
        add_object(heap, object)?;
    }
    Ok(())
}

/// The builtin objects, and behind them those of functions that are written in Python.
fn first_objects(alloc: Global, seed: Seed, facts: &Facts) -> Result<Heap, Memory>
    ensures { IfOk result (λ heap. heap ≡ start_objects ++ helper_objects (stands_in facts.now)) }
{
    let mut heap = start_objects(alloc, seed)?;
    add_helpers(alloc, seed, facts, &HELPERS, &mut heap)?;
    Ok(heap)
}

/// The objects that each run of a code starts with: the builtin ones, those of functions that are
/// written in Python, and one for each text of a constant.
fn heap_of(alloc: Global, seed: Seed, facts: &Facts, texts: &[Text]) -> Result<Heap, Memory>
    ensures { IfOk result (λ heap.
        heap ≡ (start_objects ++ helper_objects (stands_in facts.now)) ++ map Str texts.now) }
{
    let mut heap = first_objects(alloc, seed, facts)?;
    for text in texts {
        add_text(alloc, &mut heap, text)?;
    }
    Ok(heap)
}

/// No value for each of these names.
fn no_values(alloc: Global, names: &[Text]) -> Result<Seq<Option<Value>>, Memory>
    ensures { IfOk result (λ values. values ≡ map (λ name. None) names.now) }
{
    let mut values = Seq::new(alloc);
    for _name in names {
        values.push(None)?;
    }
    Ok(values)
}

/// The numbers of the first cells of a run, one for each of these names.
#[tactic(auto, using(crate::proofs::StartLemmas::numbers_next, crate::proofs::StartLemmas::numbers_end))]
fn cell_numbers(alloc: Global, names: &[Text]) -> Result<Seq<u32>, Memory>
    ensures { IfOk result (λ numbers. numbers ≡ cell_numbers names.now) }
{
    let mut numbers = Seq::new(alloc);
    for at in 0..names.len() {
        let Ok(number) = u32::try_from(at) else {
            return Err(Memory);
        };
        numbers.push(number)?;
    }
    Ok(numbers)
}

/// What the names of the module begin with: those of comprehensions are unbound, in slots or in
/// cells.
fn names_at_start(alloc: Global, facts: &BlockFacts) -> Result<Locals, Memory>
    ensures values { IfOk result
        (λ locals. locals.values ≡ map (λ name. None) facts.now.locals) }
    ensures cells { IfOk result (λ locals. locals.cells ≡ cell_numbers facts.now.cells) }
{
    let values = no_values(alloc, facts.locals.as_slice())?;
    let cells = cell_numbers(alloc, facts.cells.as_slice())?;
    Ok(Locals {
        values,
        star: Seq::new(alloc),
        stars: Seq::new(alloc),
        cells,
    })
}

/// No activation waits and no name is bound; the module's cells hold nothing.
fn frames_at_start(alloc: Global, seed: Seed, facts: &BlockFacts) -> Result<Frames, Memory>
    ensures activations { IfOk result (λ frames. frames.activations ≡ []) }
    ensures cells { IfOk result (λ frames. frames.cells ≡ map (λ name. None) facts.now.cells) }
    ensures globals { IfOk result (λ frames. frames.globals ≡ []) }
    ensures frame_count { IfOk result (λ frames. frames.frame_count ≡ 0) }
{
    let cells = no_values(alloc, facts.cells.as_slice())?;
    let mut frames = Frames::new(alloc, seed);
    frames.cells = cells;
    Ok(frames)
}

/// The slots with which a block begins.
fn slots_at_start(alloc: Global, iterates: bool) -> Result<Slots, Memory>
    ensures { IfOk result (λ slots. slots ≡ slots_at_start iterates) }
{
    let mut slots = Slots::new(alloc);
    if iterates {
        slots.push(Slot::Iter(Value::None))?;
    }
    Ok(slots)
}

/// The machine where a run of a code begins, before the module's first act (Language Reference
/// 4.1, 4.3). The seed is that of the hashes of its names and dictionaries.
///
/// # Errors
///
/// `Memory` for want of it, and where constants have more texts than a heap has room for objects.
pub fn start(alloc: Global, seed: Seed, loaded: &Loaded) -> Result<Machine, Memory>
    ensures begins { IfOk result (λ machine. Begins loaded.now machine) }
    ensures alone { IfOk result (λ machine. machine.frames.activations ≡ []) }
    ensures names { IfOk result (λ machine. machine.here.names ≡ []) }
{
    let heap = heap_of(alloc, seed, &loaded.tables.facts, loaded.texts.as_slice())?;
    let facts = &loaded.tables.facts.script.of_module;
    let names = names_at_start(alloc, facts)?;
    let mut frames = frames_at_start(alloc, seed, facts)?;
    let mut here = frames.fresh(BlockId(0), false, names)?;
    here.slots = slots_at_start(alloc, loaded.tables.blocks.script.of_module.iterates)?;
    Ok(Machine {
        alloc,
        here,
        standing: Standing::AtPlace,
        frames,
        heap,
        units: 0,
    })
}
