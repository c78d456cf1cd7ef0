ghost use Rattle.std.specs.Prelude.{◌≡◌, [], ◌∷◌, ◌++◌, IfOk, OnOk, codes, slice_get};
ghost use Rattle.std.proofs.Common.{inl, inr};
ghost use Rattle.std.specs.Fmt.{signed_decimal};
ghost use Rattle.pt_heap.specs.Entries.{entry};
ghost use Rattle.pt_heap.specs.declared.object.Part.TheVariants as parts;
ghost use Rattle.pt_reprs.specs.declared.repr.EntryForm.TheVariants as forms;
ghost use Rattle.pt_reprs.specs.Pieces.{Writes};
ghost use Rattle.pt_reprs.specs.Reprs.{around, both_pieces, depth_limit, entry_pieces};
ghost use Rattle.pt_reprs.specs.Reprs.{error_start, is_open, view_inside, view_start};
ghost use Rattle.pt_reprs.specs.Reprs.{item_pieces, object_pieces, plain_text, range_end};
ghost use Rattle.pt_reprs.specs.Reprs.{tuple_pieces};
ghost use Rattle.pt_reprs.specs.Reprs.{range_text, repr_pieces, tuple_end};
ghost use Rattle.pt_reprs.specs.Reprs.{value_pieces};
ghost use Rattle.pt_reprs.specs.Shown.{shown, viewed};

use crate::dict_view::shown;
use crate::quoted::quoted;
use crate::{WriteErr, Writer};
use pt_base::{Failure, Memory, ObjId, Seq, Text};
use pt_content::{name_at, object_at, object_class, sentence};
use pt_heap::{Dict, DictView, Heap, Object, Part, Range, Value};
use std::alloc::Global;

/// How many containers or exceptions may stand inside one another.
pub const DEPTH_LIMIT: u32 = 1000;

/// How an entry of a dictionary is written.
#[derive(Clone, Copy, Debug, PartialEq, Eq)]
pub enum EntryForm {
    /// As in a dictionary.
    Colon,
    /// As a tuple of its key and its value.
    Pair,
}

fn number_text(alloc: Global, number: i128) -> Result<Text, Memory>
    ensures { IfOk result (λ text. text ≡ signed_decimal number) }
{
    let digits = format!(in alloc; "{number}")?;
    Text::from_str(alloc, digits.as_str())
}

/// The end of a range's text. A step of 1 isn't written.
fn range_end(alloc: Global, step: i128) -> Result<Text, Memory>
    ensures { IfOk result (λ text. text ≡ range_end step) }
{
    if step == 1 {
        return Text::from_str(alloc, ")");
    }
    let step = number_text(alloc, step)?;
    sentence(alloc, &[", ", step.as_str(), ")"])
}

fn range_text(alloc: Global, range: Range) -> Result<Text, Memory>
    ensures { IfOk result (λ text. text ≡ range_text range) }
{
    let start = number_text(alloc, range.start)?;
    let stop = number_text(alloc, range.stop)?;
    let end = range_end(alloc, range.step)?;
    sentence(
        alloc,
        &["range(", start.as_str(), ", ", stop.as_str(), end.as_str()],
    )
}

/// The text of a class, a range, or what has no text of its own.
fn plain_text(alloc: Global, heap: &Heap, id: ObjId) -> Result<Text, Memory>
    ensures { IfOk result (λ text. text ≡ plain_text heap.now (slice_get heap.now id.0)) }
{
    match object_at(heap, id) {
        Some(Object::Class(class)) => sentence(alloc, &["<class '", class.name.as_str(), "'>"]),
        Some(Object::Range(range)) => range_text(alloc, *range),
        _ => sentence(alloc, &["<", object_class(heap, id), " object>"]),
    }
}

/// Whether a container stands inside itself.
fn is_open(path: &[u32], id: ObjId) -> bool
    ensures { result ≡ is_open id.0 path.now }
{
    for place in path {
        if id.0 == *place {
            return true;
        }
    }
    false
}

/// What stands behind the items of a tuple. One of one item ends in a comma.
pub fn tuple_end(items: &[Value]) -> &'static str
    ensures { result.now ≡ tuple_end items.now }
{
    match items {
        [_] => ",)",
        _ => ")",
    }
}

/// What stands before what a view shows.
pub fn view_start(part: Part) -> &'static str
    ensures { result.now ≡ view_start part }
{
    match part {
        Part::Keys => "dict_keys([",
        Part::Values => "dict_values([",
        Part::Items => "dict_items([",
    }
}

/// What stands before the arguments of an exception.
pub fn error_start(alloc: Global, heap: &Heap, class: ObjId) -> Result<Text, Memory>
    ensures { IfOk result (λ text. text ≡ error_start heap.now class) }
{
    sentence(alloc, &[name_at(heap, class), "("])
}

/// Writes the items of a container, in which so many may stand inside one another, it among them.
#[cycle(reprs)]
fn push_items(
    alloc: Global,
    heap: &Heap,
    writer: &mut Writer,
    path: &mut Seq<u32>,
    items: &[Value],
    depth: u32,
) -> Result<(), Failure<WriteErr>>
    ensures writes { Writes writer.old writer.new result
        (item_pieces heap.now depth path.old (inl items.now)) }
    ensures path { OnOk result (path.new ≡ path.old) }
{
    if depth == 0 {
        return Err(Failure::Refused(WriteErr::Deep));
    }
    match items {
        [] => Ok(()),
        [first, rest @ ..] => {
            push_value(alloc, heap, writer, path, *first, depth - 1)?;
            for item in rest {
                writer.push(", ")?;
                push_value(alloc, heap, writer, path, *item, depth - 1)?;
            }
            Ok(())
        }
    }
}

/// Writes a container between its brackets.
#[cycle(reprs)]
fn push_container(
    alloc: Global,
    heap: &Heap,
    writer: &mut Writer,
    path: &mut Seq<u32>,
    id: ObjId,
    items: &[Value],
    depth: u32,
    before: &str,
    behind: &str,
) -> Result<(), Failure<WriteErr>>
    ensures writes { Writes writer.old writer.new result
        (around before.now (item_pieces heap.now depth (path.old ++ id.0 ∷ []) (inl items.now))
        behind.now) }
    ensures path { OnOk result (path.new ≡ path.old) }
{
    writer.push(before)?;
    path.push(id.0)?;
    push_items(alloc, heap, writer, path, items, depth)?;
    let _ = path.pop();
    writer.push(behind)
}

/// Writes a key and a value.
#[cycle(reprs)]
fn push_both(
    alloc: Global,
    heap: &Heap,
    writer: &mut Writer,
    path: &mut Seq<u32>,
    first: Value,
    value: Value,
    depth: u32,
    between: &str,
) -> Result<(), Failure<WriteErr>>
    ensures writes { Writes writer.old writer.new result
        (both_pieces (value_pieces (item_pieces heap.now depth) heap.now path.old) between.now
        first value) }
    ensures path { OnOk result (path.new ≡ path.old) }
{
    push_value(alloc, heap, writer, path, first, depth)?;
    writer.push(between)?;
    push_value(alloc, heap, writer, path, value, depth)
}

/// Writes a key and a value as a tuple.
#[cycle(reprs)]
fn push_pair(
    alloc: Global,
    heap: &Heap,
    writer: &mut Writer,
    path: &mut Seq<u32>,
    first: Value,
    value: Value,
    depth: u32,
) -> Result<(), Failure<WriteErr>>
    ensures writes { Writes writer.old writer.new result
        (around (codes "(") (both_pieces (value_pieces (item_pieces heap.now depth) heap.now
        path.old) (codes ", ") first value) (codes ")")) }
    ensures path { OnOk result (path.new ≡ path.old) }
{
    writer.push("(")?;
    push_both(alloc, heap, writer, path, first, value, depth, ", ")?;
    writer.push(")")
}

/// Writes an entry of a dictionary.
#[cycle(reprs)]
fn push_entry(
    alloc: Global,
    heap: &Heap,
    writer: &mut Writer,
    path: &mut Seq<u32>,
    first: Value,
    value: Value,
    depth: u32,
    form: EntryForm,
) -> Result<(), Failure<WriteErr>>
    ensures writes { Writes writer.old writer.new result
        (entry_pieces form (value_pieces (item_pieces heap.now depth) heap.now path.old)
        (entry [] first value)) }
    ensures path { OnOk result (path.new ≡ path.old) }
{
    match form {
        EntryForm::Colon => push_both(alloc, heap, writer, path, first, value, depth, ": "),
        EntryForm::Pair => push_pair(alloc, heap, writer, path, first, value, depth),
    }
}

/// Writes the entries of a dictionary, in which so many containers may stand inside one another, it
/// among them.
#[cycle(reprs)]
fn push_entries(
    alloc: Global,
    heap: &Heap,
    writer: &mut Writer,
    path: &mut Seq<u32>,
    dict: &Dict,
    depth: u32,
    form: EntryForm,
) -> Result<(), Failure<WriteErr>>
    ensures writes { Writes writer.old writer.new result
        (item_pieces heap.now depth path.old (inr (form, dict.now))) }
    ensures path { OnOk result (path.new ≡ path.old) }
{
    if depth == 0 {
        return Err(Failure::Refused(WriteErr::Deep));
    }
    let mut left = dict.entries();
    let Some(first) = left.next() else {
        return Ok(());
    };
    push_entry(
        alloc,
        heap,
        writer,
        path,
        first.first,
        first.value,
        depth - 1,
        form,
    )?;
    while let Some(entry) = left.next() {
        writer.push(", ")?;
        push_entry(
            alloc,
            heap,
            writer,
            path,
            entry.first,
            entry.value,
            depth - 1,
            form,
        )?;
    }
    Ok(())
}

/// Writes a dictionary, or a view of its entries, between its brackets.
#[cycle(reprs)]
fn push_dict(
    alloc: Global,
    heap: &Heap,
    writer: &mut Writer,
    path: &mut Seq<u32>,
    id: ObjId,
    dict: &Dict,
    depth: u32,
    form: EntryForm,
    before: &str,
    behind: &str,
) -> Result<(), Failure<WriteErr>>
    ensures writes { Writes writer.old writer.new result
        (around before.now (item_pieces heap.now depth (path.old ++ id.0 ∷ [])
        (inr (form, dict.now))) behind.now) }
    ensures path { OnOk result (path.new ≡ path.old) }
{
    writer.push(before)?;
    path.push(id.0)?;
    push_entries(alloc, heap, writer, path, dict, depth, form)?;
    let _ = path.pop();
    writer.push(behind)
}

/// Writes a set that is not empty.
#[cycle(reprs)]
fn push_set(
    alloc: Global,
    heap: &Heap,
    writer: &mut Writer,
    path: &mut Seq<u32>,
    id: ObjId,
    set: &Dict,
    depth: u32,
) -> Result<(), Failure<WriteErr>>
    ensures writes { Writes writer.old writer.new result
        (around (codes "{") (item_pieces heap.now depth (path.old ++ id.0 ∷ [])
        (inl (shown parts.Keys set.now))) (codes "}")) }
    ensures path { OnOk result (path.new ≡ path.old) }
{
    let items = shown(alloc, Part::Keys, set)?;
    push_container(
        alloc,
        heap,
        writer,
        path,
        id,
        items.as_slice(),
        depth,
        "{",
        "}",
    )
}

/// Writes what a view shows of a dictionary.
#[cycle(reprs)]
fn push_shown(
    alloc: Global,
    heap: &Heap,
    writer: &mut Writer,
    path: &mut Seq<u32>,
    id: ObjId,
    part: Part,
    dict: &Dict,
    depth: u32,
) -> Result<(), Failure<WriteErr>>
    ensures writes { Writes writer.old writer.new result
        (around (view_start part) (item_pieces heap.now depth (path.old ++ id.0 ∷ [])
        (view_inside part dict.now)) (codes "])")) }
    ensures path { OnOk result (path.new ≡ path.old) }
{
    let start = view_start(part);
    match part {
        Part::Keys | Part::Values => {
            let items = shown(alloc, part, dict)?;
            push_container(
                alloc,
                heap,
                writer,
                path,
                id,
                items.as_slice(),
                depth,
                start,
                "])",
            )
        }
        Part::Items => {
            push_dict(
                alloc,
                heap,
                writer,
                path,
                id,
                dict,
                depth,
                EntryForm::Pair,
                start,
                "])",
            )
        }
    }
}

/// Writes a view.
#[cycle(reprs)]
fn push_view(
    alloc: Global,
    heap: &Heap,
    writer: &mut Writer,
    path: &mut Seq<u32>,
    id: ObjId,
    view: DictView,
    depth: u32,
) -> Result<(), Failure<WriteErr>>
    ensures writes { Writes writer.old writer.new result
        (around (view_start view.part) (item_pieces heap.now depth (path.old ++ id.0 ∷ [])
        (view_inside view.part (viewed heap.now view))) (codes "])")) }
    ensures path { OnOk result (path.new ≡ path.old) }
{
    match object_at(heap, view.dict) {
        Some(Object::Dict(dict)) => {
            push_shown(alloc, heap, writer, path, id, view.part, dict, depth)
        }
        _ => {
            let none = Dict::new(alloc, heap.seed());
            push_shown(alloc, heap, writer, path, id, view.part, &none, depth)
        }
    }
}

/// Writes an object.
#[cycle(reprs)]
fn push_object(
    alloc: Global,
    heap: &Heap,
    writer: &mut Writer,
    path: &mut Seq<u32>,
    id: ObjId,
    depth: u32,
) -> Result<(), Failure<WriteErr>>
    ensures writes { Writes writer.old writer.new result
        (object_pieces (item_pieces heap.now depth) heap.now path.old id.0
        (slice_get heap.now id.0)) }
    ensures path { OnOk result (path.new ≡ path.old) }
{
    match object_at(heap, id) {
        Some(Object::Str(text)) => {
            let text = quoted(alloc, text.text().as_str())?;
            writer.push(text.as_str())
        }
        Some(Object::List(_)) if is_open(path.as_slice(), id) => writer.push("[...]"),
        Some(Object::List(items)) => {
            push_container(
                alloc,
                heap,
                writer,
                path,
                id,
                items.as_slice(),
                depth,
                "[",
                "]",
            )
        }
        Some(Object::Tuple(_)) if is_open(path.as_slice(), id) => writer.push("(...)"),
        Some(Object::Tuple(items)) => {
            let items = items.as_slice();
            push_container(
                alloc,
                heap,
                writer,
                path,
                id,
                items,
                depth,
                "(",
                tuple_end(items),
            )
        }
        Some(Object::Dict(_)) if is_open(path.as_slice(), id) => writer.push("{...}"),
        Some(Object::Dict(dict)) => {
            push_dict(
                alloc,
                heap,
                writer,
                path,
                id,
                dict,
                depth,
                EntryForm::Colon,
                "{",
                "}",
            )
        }
        Some(Object::Set(set)) if set.len() == 0 => writer.push("set()"),
        Some(Object::Set(set)) => push_set(alloc, heap, writer, path, id, set, depth),
        Some(Object::View(_)) if is_open(path.as_slice(), id) => writer.push("..."),
        Some(Object::View(view)) => push_view(alloc, heap, writer, path, id, *view, depth),
        Some(Object::Slice(_)) => Err(Failure::Refused(WriteErr::Feature)),
        Some(Object::Error(_)) if is_open(path.as_slice(), id) => writer.push("..."),
        Some(Object::Error(error)) => {
            let before = error_start(alloc, heap, error.class)?;
            let args = error.args.as_slice();
            push_container(
                alloc,
                heap,
                writer,
                path,
                id,
                args,
                depth,
                before.as_str(),
                ")",
            )
        }
        _ => {
            let text = plain_text(alloc, heap, id)?;
            writer.push(text.as_str())
        }
    }
}

/// Writes a value.
#[cycle(reprs)]
fn push_value(
    alloc: Global,
    heap: &Heap,
    writer: &mut Writer,
    path: &mut Seq<u32>,
    value: Value,
    depth: u32,
) -> Result<(), Failure<WriteErr>>
    ensures writes { Writes writer.old writer.new result
        (value_pieces (item_pieces heap.now depth) heap.now path.old value) }
    ensures path { OnOk result (path.new ≡ path.old) }
{
    match value {
        Value::None => writer.push("None"),
        Value::Bool(true) => writer.push("True"),
        Value::Bool(false) => writer.push("False"),
        Value::Int(number) => {
            let text = number_text(alloc, number)?;
            writer.push(text.as_str())
        }
        Value::Ellipsis => writer.push("Ellipsis"),
        Value::NotImplemented => writer.push("NotImplemented"),
        Value::Obj(id) => push_object(alloc, heap, writer, path, id, depth),
    }
}

/// Writes what `repr` gives of a value. Deep where it comes to a container in which more than 1,000
/// stand inside one another, Length where there is no room, whichever comes first from left to
/// right.
pub fn push_repr(
    alloc: Global,
    heap: &Heap,
    writer: &mut Writer,
    value: Value,
) -> Result<(), Failure<WriteErr>>
    ensures { Writes writer.old writer.new result (repr_pieces heap.now value) }
{
    let mut path = Seq::new(alloc);
    push_value(alloc, heap, writer, &mut path, value, DEPTH_LIMIT)
}

/// Writes what `repr` gives of a tuple of these items. Errors as those of `push_repr`.
pub fn push_tuple(
    alloc: Global,
    heap: &Heap,
    writer: &mut Writer,
    items: &[Value],
) -> Result<(), Failure<WriteErr>>
    ensures { Writes writer.old writer.new result (tuple_pieces heap.now items.now) }
{
    let mut path = Seq::new(alloc);
    writer.push("(")?;
    push_items(alloc, heap, writer, &mut path, items, DEPTH_LIMIT)?;
    writer.push(tuple_end(items))
}
