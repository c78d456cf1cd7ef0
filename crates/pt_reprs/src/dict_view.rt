ghost use Rattle.std.specs.Prelude.{◌≡◌, ◌++◌, [], IfOk, OnOk};
ghost use Rattle.pt_heap.specs.Entries.{entry};
ghost use Rattle.pt_reprs.specs.Shown.{shown, shown_of, viewed};

use pt_base::{Memory, Seq};
use pt_content::object_at;
use pt_heap::{Dict, DictView, Heap, Object, Part, Value};
use std::alloc::Global;

fn push_shown(values: &mut Seq<Value>, part: Part, first: Value, value: Value) -> Result<(), Memory>
    ensures { OnOk result (values.new ≡ values.old ++ shown_of part (entry [] first value)) }
{
    match part {
        Part::Keys => values.push(first),
        Part::Values => values.push(value),
        Part::Items => {
            values.push(first)?;
            values.push(value)
        }
    }
}

/// What a view shows of a dictionary: its keys, its values, or both in turn.
pub fn shown(alloc: Global, part: Part, dict: &Dict) -> Result<Seq<Value>, Memory>
    ensures { IfOk result (λ values. values ≡ shown part dict.now) }
{
    let mut values = Seq::new(alloc);
    let mut left = dict.entries();
    while let Some(entry) = left.next() {
        push_shown(&mut values, part, entry.first, entry.value)?;
    }
    Ok(values)
}

/// What a view shows of the dictionary that it is of.
pub fn viewed(alloc: Global, heap: &Heap, view: DictView) -> Result<Seq<Value>, Memory>
    ensures { IfOk result (λ values. values ≡ shown view.part (viewed heap.now view)) }
{
    match object_at(heap, view.dict) {
        Some(Object::Dict(dict)) => shown(alloc, view.part, dict),
        _ => Ok(Seq::new(alloc)),
    }
}
