ghost use Rattle.std.specs.Prelude.{◌≡◌, ◌+◌, ◌∷◌, ◌++◌, ◌≤◌, drop, length, take, IfOk};
ghost use Rattle.pt_content.specs.pt_attrs.Look.{object_of};
ghost use Rattle.pt_sequences.specs.Starred.{around_list, parted_behind, starred};
ghost use Rattle.pt_sequences.specs.Starred.{starred_content, starred_items};

use crate::cursor::asked_or;
use pt_base::{Memory, ObjId, Seq, What};
use pt_content::{Change, Content, Helper, NewObject, PrimAns, VALUE_ERROR, object_of, raise};
use pt_heap::{Heap, Object, Value};
use std::alloc::Global;

/// Values with one between them.
fn around(
    alloc: Global,
    first: &[Value],
    between: Value,
    last: &[Value],
) -> Result<Seq<Value>, Memory>
    ensures { IfOk result (λ values. values ≡ first.now ++ between ∷ last.now) }
{
    let mut values = Vec::from_slice(alloc, first)?;
    values.push(between)?;
    values.extend_from_slice(last)?;
    Ok(Seq::from_vec(values))
}

fn around_list(
    alloc: Global,
    heap: &Heap,
    first: &[Value],
    between: &[Value],
    last: &[Value],
) -> Result<Content, Memory>
    ensures { IfOk result (λ content. content
        ≡ around_list heap.now first.now between.now last.now) }
{
    let mut objects = Seq::new(alloc);
    objects.push(NewObject::List(Seq::from_slice(alloc, between)?))?;
    let list = Value::Obj(ObjId(heap.len()));
    Ok(Content::Changed {
        change: Change {
            replacement: None,
            objects,
        },
        answer: PrimAns::Values(around(alloc, first, list, last)?),
    })
}

fn parted_behind(
    alloc: Global,
    heap: &Heap,
    after: usize,
    first: &[Value],
    behind: &[Value],
) -> Result<Content, Memory>
    requires { after ≤ length behind.now }
    ensures { IfOk result (λ content. content
        ≡ parted_behind heap.now after first.now behind.now) }
{
    let (between, last) = behind.split_at(behind.len() - after);
    around_list(alloc, heap, first, between, last)
}

fn starred_items(
    alloc: Global,
    heap: &Heap,
    before: u32,
    after: u32,
    items: &[Value],
) -> Result<Content, Memory>
    ensures { IfOk result (λ content. content ≡ starred_items heap.now before after items.now) }
{
    if (items.len() as u128) < before as u128 + after as u128 {
        return raise(alloc, VALUE_ERROR, "not enough values to unpack");
    }
    let (first, behind) = items.split_at(before as usize);
    parted_behind(alloc, heap, after as usize, first, behind)
}

/// So many first items of a list or tuple, a new list of those between, and so many last ones
/// (Language Reference 7.2). A ValueError for fewer items, a TypeError for what isn't iterable.
pub fn starred_content(
    alloc: Global,
    heap: &Heap,
    before: u32,
    after: u32,
    value: Value,
) -> Result<Content, Memory>
    ensures { IfOk result (λ content. content ≡ starred_content heap.now before after value) }
{
    match object_of(heap, value) {
        Some(Object::List(items)) => starred_items(alloc, heap, before, after, items.as_slice()),
        Some(Object::Tuple(items)) => starred_items(alloc, heap, before, after, items.as_slice()),
        Some(
            Object::Range(_)
            | Object::Str(_)
            | Object::Dict(_)
            | Object::Set(_)
            | Object::View(_)
            | Object::Cursor(_)
            | Object::Generator(_),
        ) => Ok(Content::Outside(What::Feature)),
        _ => asked_or(alloc, Helper::ListOf, "iterable", heap, value),
    }
}
