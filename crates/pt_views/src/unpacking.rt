ghost use Rattle.std.specs.Prelude.{◌≡◌, ◌+◌, [], ◌∷◌, ◌++◌, ◌≤◌, IfOk, None, length, slice_get};
ghost use Rattle.pt_views.specs.Unpacking.{around, around_list, given, has_count, most, of_cursor};
ghost use Rattle.pt_views.specs.Unpacking.{of_items, of_object, of_over, refused, so_many};
ghost use Rattle.pt_views.specs.Unpacking.{starred, starred_content, starred_in, unpack_content};
ghost use Rattle.pt_views.specs.Cursors.{dict_at};
ghost use Rattle.pt_views.specs.Unpacking.{unpacked, unpacked_from, view_has_count, with_cursor};

use crate::cursor::{RUNTIME_ERROR, dict_at};
use crate::items::{Item, items_from, new_in, new_value, place_behind, values_in};
use pt_base::{Memory, ObjId, Seq, Text, What};
use pt_content::{Change, Content, Mutable, NewObject, PrimAns, Replacement, VALUE_ERROR, raise};
use pt_dicts::object_at;
use pt_heap::{Cursor, DictView, Heap, Object, Value};
use std::alloc::Global;

/// The most items that a list may have.
const ENTRY_LIMIT: u64 = 4_194_304;

/// What is unpacked from.
#[derive(Drop)]
pub struct Source {
    pub items: Seq<Item>,
    /// The iterator behind one item more than is wanted.
    pub moved: Option<Replacement>,
    /// The iterator behind all items.
    pub ended: Option<Replacement>,
}

/// What targets there are.
#[derive(Clone, Copy, Debug)]
pub enum Wanted {
    /// So many.
    Count(u32),
    /// So many before one with a star, and so many behind it.
    Around(u32, u32),
}

fn refused(
    alloc: Global,
    heap: &Heap,
    iterator: Option<Replacement>,
    text: &str,
) -> Result<Content, Memory>
    ensures { IfOk result (λ content. content ≡ refused heap.now iterator text.now) }
{
    let mut objects = Seq::new(alloc);
    objects.push(NewObject::Text(Text::from_str(alloc, text)?))?;
    Ok(Content::Changed {
        change: Change {
            replacement: iterator,
            objects,
        },
        answer: PrimAns::Raise {
            class: VALUE_ERROR,
            arg: Some(Value::Obj(ObjId(heap.len()))),
        },
    })
}

/// All items, with the iterator behind them.
fn given(
    alloc: Global,
    heap: &Heap,
    items: &Seq<Item>,
    ended: Option<Replacement>,
) -> Result<Content, Memory>
    ensures { IfOk result (λ content.
        content ≡ given heap.now (record { items = items.now; moved = None; ended = ended })) }
{
    let values = values_in(alloc, heap.len(), items.as_slice())?;
    let objects = new_in(alloc, items.as_slice())?;
    Ok(Content::Changed {
        change: Change {
            replacement: ended,
            objects,
        },
        answer: PrimAns::Values(values),
    })
}

/// So many items.
fn so_many(
    alloc: Global,
    heap: &Heap,
    count: u32,
    items: &Seq<Item>,
    moved: Option<Replacement>,
    ended: Option<Replacement>,
) -> Result<Content, Memory>
    ensures { IfOk result (λ content. content
        ≡ so_many heap.now count (record { items = items.now; moved = moved; ended = ended })) }
{
    let there = items.len() as u64;
    let wanted = count as u64;
    if wanted < there {
        return refused(alloc, heap, moved, "too many values to unpack");
    }
    if there < wanted {
        return refused(alloc, heap, ended, "not enough values to unpack");
    }
    given(alloc, heap, items, ended)
}

/// The first values, a list that is new between them, and the last ones.
fn with_list(
    alloc: Global,
    first: &[Value],
    list: Value,
    last: &[Value],
) -> Result<Seq<Value>, Memory>
    ensures { IfOk result (λ values. values ≡ first.now ++ list ∷ last.now) }
{
    let mut values = Vec::from_slice(alloc, first)?;
    values.push(list)?;
    values.extend_from_slice(last)?;
    Ok(Seq::from_vec(values))
}

/// New objects with a list of values behind them.
fn with_new_list(
    alloc: Global,
    mut objects: Seq<NewObject>,
    between: &[Value],
) -> Result<Seq<NewObject>, Memory>
    ensures { IfOk result (λ all. all ≡ objects ++ NewObject.List between.now ∷ []) }
{
    objects.push(NewObject::List(Seq::from_slice(alloc, between)?))?;
    Ok(objects)
}

/// The first values, a new list of those between, and so many last ones.
fn around_list(
    alloc: Global,
    heap: &Heap,
    after: usize,
    items: &Seq<Item>,
    ended: Option<Replacement>,
    first: &[Value],
    behind: &[Value],
) -> Result<Content, Memory>
    requires { after ≤ length behind.now }
    ensures { IfOk result (λ content. content
        ≡ around_list heap.now after (record { items = items.now; moved = None; ended = ended })
        first.now behind.now) }
{
    let (between, last) = behind.split_at(behind.len() - after);
    let objects = new_in(alloc, items.as_slice())?;
    let list = new_value(heap.len(), objects.len())?;
    let values = with_list(alloc, first, list, last)?;
    let objects = with_new_list(alloc, objects, between)?;
    Ok(Content::Changed {
        change: Change {
            replacement: ended,
            objects,
        },
        answer: PrimAns::Values(values),
    })
}

fn around(
    alloc: Global,
    heap: &Heap,
    before: usize,
    after: usize,
    items: &Seq<Item>,
    ended: Option<Replacement>,
    values: &[Value],
) -> Result<Content, Memory>
    requires { before + after ≤ length values.now }
    ensures { IfOk result (λ content. content
        ≡ around heap.now before after (record { items = items.now; moved = None; ended = ended })
        values.now) }
{
    let (first, behind) = values.split_at(before);
    around_list(alloc, heap, after, items, ended, first, behind)
}

fn starred_in(
    alloc: Global,
    heap: &Heap,
    before: u32,
    after: u32,
    items: &Seq<Item>,
    ended: Option<Replacement>,
) -> Result<Content, Memory>
    ensures { IfOk result (λ content. content ≡ starred_in heap.now before after
        (record { items = items.now; moved = None; ended = ended })) }
{
    let there = items.len() as u64;
    if there > ENTRY_LIMIT {
        return Ok(Content::Outside(What::Length));
    }
    if there < before as u64 + after as u64 {
        return refused(alloc, heap, ended, "not enough values to unpack");
    }
    let values = values_in(alloc, heap.len(), items.as_slice())?;
    around(
        alloc,
        heap,
        before as usize,
        after as usize,
        items,
        ended,
        values.as_slice(),
    )
}

/// How many items are looked for: one more than so many, or than a list may have.
fn most(wanted: Wanted) -> u64
    ensures { result ≡ most wanted }
{
    match wanted {
        Wanted::Count(count) => count as u64 + 1,
        Wanted::Around(_, _) => ENTRY_LIMIT + 1,
    }
}

fn unpacked_from(
    alloc: Global,
    heap: &Heap,
    wanted: Wanted,
    source: Source,
) -> Result<Content, Memory>
    ensures { IfOk result (λ content. content ≡ unpacked_from heap.now wanted source) }
{
    let Source {
        items,
        moved,
        ended,
    } = source;
    match wanted {
        Wanted::Count(count) => so_many(alloc, heap, count, &items, moved, ended),
        Wanted::Around(before, after) => starred_in(alloc, heap, before, after, &items, ended),
    }
}

/// A value that is no iterator stays as it is.
fn of_object(alloc: Global, heap: &Heap, wanted: Wanted, id: ObjId) -> Result<Content, Memory>
    ensures { IfOk result
        (λ content. content ≡ of_object heap.now wanted (slice_get heap.now id.0)) }
{
    let source = Source {
        items: items_from(alloc, heap, id, most(wanted), 0)?,
        moved: None,
        ended: None,
    };
    unpacked_from(alloc, heap, wanted, source)
}

fn view_has_count(heap: &Heap, count: u32, view: DictView) -> bool
    ensures { result ≡ view_has_count count (dict_at heap.now view.dict) }
{
    match dict_at(heap, view.dict) {
        Some(dict) => count == dict.len(),
        None => true,
    }
}

/// Whether a dictionary, a set or what a view is of has as many entries as at the start.
fn has_count(heap: &Heap, count: u32, over: ObjId) -> bool
    ensures { result ≡ has_count heap.now count (slice_get heap.now over.0) }
{
    match object_at(heap, over) {
        Some(Object::Dict(dict)) => count == dict.len(),
        Some(Object::Set(set)) => count == set.len(),
        Some(Object::View(view)) => view_has_count(heap, count, *view),
        _ => true,
    }
}

fn with_cursor(id: ObjId, cursor: Cursor) -> Option<Replacement>
    ensures { result ≡ with_cursor id cursor }
{
    Some(Replacement {
        id,
        object: Mutable::Cursor(cursor),
    })
}

/// Items, and the iterator behind them.
fn of_items(id: ObjId, cursor: Cursor, items: Seq<Item>) -> Source
    ensures { result ≡ of_items id cursor items }
{
    let moved = Cursor {
        over: cursor.over,
        place: place_behind(items.as_slice(), cursor.place),
        count: cursor.count,
    };
    let ended = Cursor {
        over: None,
        place: cursor.place,
        count: cursor.count,
    };
    Source {
        items,
        moved: with_cursor(id, moved),
        ended: with_cursor(id, ended),
    }
}

fn of_over(
    alloc: Global,
    heap: &Heap,
    wanted: Wanted,
    id: ObjId,
    cursor: Cursor,
    over: ObjId,
) -> Result<Content, Memory>
    ensures { IfOk result (λ content.
        content ≡ of_over heap.now wanted id cursor (slice_get heap.now over.0)) }
{
    if !has_count(heap, cursor.count, over) {
        return raise(alloc, RUNTIME_ERROR, "container changed during iteration");
    }
    let items = items_from(alloc, heap, over, most(wanted), cursor.place)?;
    unpacked_from(alloc, heap, wanted, of_items(id, cursor, items))
}

fn of_cursor(
    alloc: Global,
    heap: &Heap,
    wanted: Wanted,
    id: ObjId,
    cursor: Cursor,
) -> Result<Content, Memory>
    ensures { IfOk result
        (λ content. content ≡ of_cursor heap.now wanted id cursor cursor.over) }
{
    match cursor.over {
        Some(over) => of_over(alloc, heap, wanted, id, cursor, over),
        None => unpacked_from(alloc, heap, wanted, of_items(id, cursor, Seq::new(alloc))),
    }
}

fn unpacked(alloc: Global, heap: &Heap, count: u32, id: ObjId) -> Result<Content, Memory>
    ensures { IfOk result
        (λ content. content ≡ unpacked heap.now count id (slice_get heap.now id.0)) }
{
    match object_at(heap, id) {
        Some(Object::Dict(_) | Object::Set(_) | Object::View(_)) => {
            of_object(alloc, heap, Wanted::Count(count), id)
        }
        Some(Object::Cursor(cursor)) => of_cursor(alloc, heap, Wanted::Count(count), id, *cursor),
        _ => pt_sequences::unpack_content(alloc, heap, count, Value::Obj(id)),
    }
}

/// So many items of a value (Language Reference 7.2). A ValueError for another number of items, a
/// TypeError for what isn't iterable.
pub fn unpack_content(
    alloc: Global,
    heap: &Heap,
    count: u32,
    value: Value,
) -> Result<Content, Memory>
    ensures { IfOk result (λ content. content ≡ unpack_content heap.now count value) }
{
    match value {
        Value::Obj(id) => unpacked(alloc, heap, count, id),
        _ => pt_sequences::unpack_content(alloc, heap, count, value),
    }
}

fn starred(
    alloc: Global,
    heap: &Heap,
    before: u32,
    after: u32,
    id: ObjId,
) -> Result<Content, Memory>
    ensures { IfOk result
        (λ content. content ≡ starred heap.now before after id (slice_get heap.now id.0)) }
{
    let wanted = Wanted::Around(before, after);
    match object_at(heap, id) {
        Some(
            Object::Str(_) | Object::Range(_) | Object::Dict(_) | Object::Set(_) | Object::View(_),
        ) => of_object(alloc, heap, wanted, id),
        Some(Object::Cursor(cursor)) => of_cursor(alloc, heap, wanted, id, *cursor),
        _ => pt_sequences::starred_content(alloc, heap, before, after, Value::Obj(id)),
    }
}

/// So many first items of a value, a new list of those between, and so many last ones (Language
/// Reference 7.2). A ValueError for fewer items, a TypeError for what isn't iterable.
pub fn starred_content(
    alloc: Global,
    heap: &Heap,
    before: u32,
    after: u32,
    value: Value,
) -> Result<Content, Memory>
    ensures { IfOk result (λ content. content ≡ starred_content heap.now before after value) }
{
    match value {
        Value::Obj(id) => starred(alloc, heap, before, after, id),
        _ => pt_sequences::starred_content(alloc, heap, before, after, value),
    }
}
