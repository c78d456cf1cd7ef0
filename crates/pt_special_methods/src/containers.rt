//! Texts of containers whose parts are written by methods of a script.

ghost use Rattle.std.specs.Prelude.{◌≡◌, ◌∷◌, Ok, IfOk};
ghost use Rattle.pt_content.specs.pt_attrs.Look.{object_of};
ghost use Rattle.pt_content.specs.Operands.{text_of};
ghost use Rattle.pt_reprs.specs.Pieces.{Writes};
ghost use Rattle.pt_reprs.specs.Reached.{parts_of};
ghost use Rattle.pt_reprs.specs.Reprs.{around};
ghost use Rattle.pt_reprs.specs.Texts.{new_text, text_content};
ghost use Rattle.pt_special_methods.specs.Containers.{dots_of, in_turn, items_around, pairs_shown};
ghost use Rattle.pt_special_methods.specs.Containers.{text_pieces, view_shown, with_between, wrap};
ghost use Rattle.pt_special_methods.specs.Containers.{wrap_by, wrapped};

use pt_base::{Failure, Memory, Seq, Text, What};
use pt_content::{Content, object_of, text_of};
use pt_heap::{Heap, Object, Part, Value};
use pt_reprs::{
    WriteErr, Writer, error_start, new_text, shown, tuple_end, unwritten, view_start, viewed,
};
use pt_strs::LENGTH_LIMIT;
use std::alloc::Global;

fn dots_of(heap: &Heap, value: Value) -> &'static str
    ensures { result.now ≡ dots_of (object_of heap.now value) }
{
    match object_of(heap, value) {
        Some(Object::List(_)) => "[...]",
        Some(Object::Tuple(_)) => "(...)",
        Some(Object::Dict(_)) => "{...}",
        Some(Object::Set(_)) => "{...}",
        _ => "...",
    }
}

/// What stands for a container inside itself, as a new text.
pub fn dots(alloc: Global, heap: &Heap, value: Value) -> Result<Content, Memory>
    ensures { IfOk result (λ content. content ≡ new_text (dots_of (object_of heap.now value))) }
{
    Ok(new_text(Text::from_str(alloc, dots_of(heap, value))?))
}

/// The items of a container, the keys and values of a dictionary in turn, what a view shows, or the
/// arguments of an exception.
pub fn parts_of(alloc: Global, heap: &Heap, value: Value) -> Result<Seq<Value>, Memory>
    ensures { IfOk result (λ parts. parts ≡ parts_of heap.now value) }
{
    match object_of(heap, value) {
        Some(Object::List(items)) => Seq::from_slice(alloc, items.as_slice()),
        Some(Object::Tuple(items)) => Seq::from_slice(alloc, items.as_slice()),
        Some(Object::Dict(dict)) => shown(alloc, Part::Items, dict),
        Some(Object::Set(set)) => shown(alloc, Part::Keys, set),
        Some(Object::View(view)) => viewed(alloc, heap, *view),
        Some(Object::Error(error)) => Seq::from_slice(alloc, error.args.as_slice()),
        _ => Ok(Seq::new(alloc)),
    }
}

/// Writes a text.
fn push_text(heap: &Heap, writer: &mut Writer, text: Value) -> Result<(), Failure<WriteErr>>
    ensures { Writes writer.old writer.new result (text_pieces (text_of heap.now text)) }
{
    match text_of(heap, text) {
        Some(text) => writer.push(text.text().as_str()),
        None => Err(Failure::Refused(WriteErr::Feature)),
    }
}

/// Writes a text behind another.
fn push_behind(
    heap: &Heap,
    writer: &mut Writer,
    before: &str,
    text: Value,
) -> Result<(), Failure<WriteErr>>
    ensures { Writes writer.old writer.new result
        (Ok before.now ∷ text_pieces (text_of heap.now text)) }
{
    writer.push(before)?;
    push_text(heap, writer, text)
}

/// Writes texts, each behind one of two others in turn.
fn push_in_turn(
    heap: &Heap,
    writer: &mut Writer,
    before: &str,
    next: &str,
    texts: &[Value],
) -> Result<(), Failure<WriteErr>>
    ensures { Writes writer.old writer.new result
        (in_turn heap.now before.now next.now texts.now) }
{
    let mut first = before;
    let mut second = next;
    for text in texts {
        push_behind(heap, writer, first, *text)?;
        let last = first;
        first = second;
        second = last;
    }
    Ok(())
}

/// Writes texts, one of two others between them in turn.
fn push_with_between(
    heap: &Heap,
    writer: &mut Writer,
    before: &str,
    next: &str,
    texts: &[Value],
) -> Result<(), Failure<WriteErr>>
    ensures { Writes writer.old writer.new result
        (with_between heap.now before.now next.now texts.now) }
{
    match texts {
        [] => Ok(()),
        [first, rest @ ..] => {
            push_text(heap, writer, *first)?;
            push_in_turn(heap, writer, before, next, rest)
        }
    }
}

/// Writes texts between brackets, with one of two others between them in turn.
fn push_around(
    heap: &Heap,
    writer: &mut Writer,
    start: &str,
    before: &str,
    next: &str,
    texts: &[Value],
    end: &str,
) -> Result<(), Failure<WriteErr>>
    ensures { Writes writer.old writer.new result
        (around start.now (with_between heap.now before.now next.now texts.now) end.now) }
{
    writer.push(start)?;
    push_with_between(heap, writer, before, next, texts)?;
    writer.push(end)
}

/// Writes texts between brackets, with commas between them.
fn push_items(
    heap: &Heap,
    writer: &mut Writer,
    start: &str,
    texts: &[Value],
    end: &str,
) -> Result<(), Failure<WriteErr>>
    ensures { Writes writer.old writer.new result
        (items_around heap.now start.now texts.now end.now) }
{
    push_around(heap, writer, start, ", ", ", ", texts, end)
}

/// Writes keys and values in turn as tuples.
fn push_pairs(heap: &Heap, writer: &mut Writer, texts: &[Value]) -> Result<(), Failure<WriteErr>>
    ensures { Writes writer.old writer.new result (pairs_shown heap.now texts.now) }
{
    match texts {
        [] => push_items(heap, writer, "dict_items([", texts, "])"),
        [_, ..] => push_around(heap, writer, "dict_items([(", ", ", "), (", texts, ")])"),
    }
}

/// Writes a view.
fn push_view(
    heap: &Heap,
    writer: &mut Writer,
    part: Part,
    texts: &[Value],
) -> Result<(), Failure<WriteErr>>
    ensures { Writes writer.old writer.new result (view_shown heap.now part texts.now) }
{
    match part {
        Part::Items => push_pairs(heap, writer, texts),
        Part::Keys => push_items(heap, writer, view_start(Part::Keys), texts, "])"),
        Part::Values => push_items(heap, writer, view_start(Part::Values), texts, "])"),
    }
}

/// Writes a container, view or exception whose parts have these texts.
fn push_wrapped(
    alloc: Global,
    heap: &Heap,
    writer: &mut Writer,
    value: Value,
    texts: &[Value],
) -> Result<(), Failure<WriteErr>>
    ensures { Writes writer.old writer.new result
        (wrapped heap.now (object_of heap.now value) texts.now) }
{
    match object_of(heap, value) {
        Some(Object::List(_)) => push_items(heap, writer, "[", texts, "]"),
        Some(Object::Tuple(_)) => push_items(heap, writer, "(", texts, tuple_end(texts)),
        Some(Object::Dict(_)) => push_around(heap, writer, "{", ": ", ", ", texts, "}"),
        Some(Object::Set(_)) => push_items(heap, writer, "{", texts, "}"),
        Some(Object::View(view)) => push_view(heap, writer, view.part, texts),
        Some(Object::Error(error)) => {
            let start = error_start(alloc, heap, error.class)?;
            push_items(heap, writer, start.as_str(), texts, ")")
        }
        _ => Ok(()),
    }
}

fn wrapped_text(
    alloc: Global,
    heap: &Heap,
    value: Value,
    texts: &[Value],
) -> Result<Content, Memory>
    ensures { IfOk result (λ content.
        content ≡ text_content (wrapped heap.now (object_of heap.now value) texts.now)) }
{
    let mut writer = Writer::new(alloc, LENGTH_LIMIT);
    match push_wrapped(alloc, heap, &mut writer, value, texts) {
        Ok(()) => Ok(new_text(writer.text)),
        Err(Failure::Refused(error)) => unwritten(alloc, error),
        Err(Failure::Memory) => Err(Memory),
    }
}

fn wrap_by(alloc: Global, heap: &Heap, value: Value, texts: Value) -> Result<Content, Memory>
    ensures { IfOk result (λ content.
        content ≡ wrap_by heap.now (object_of heap.now value) (object_of heap.now texts)) }
{
    match object_of(heap, texts) {
        Some(Object::List(texts)) => wrapped_text(alloc, heap, value, texts.as_slice()),
        _ => Ok(Content::Outside(What::Feature)),
    }
}

/// The text of a container, view or exception from the list of the texts of its parts.
pub fn wrap(alloc: Global, args: &[Value], heap: &Heap) -> Result<Content, Memory>
    ensures { IfOk result (λ content. content ≡ wrap args.now heap.now) }
{
    match args {
        [value, texts] => wrap_by(alloc, heap, *value, *texts),
        _ => Ok(Content::Outside(What::Feature)),
    }
}
