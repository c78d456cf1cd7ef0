ghost use Rattle.std.specs.Prelude.{◌≡◌, ◌++◌, length, option_to_list, IfOk, OnOk};
ghost use Rattle.std.specs.Str.{chars};
ghost use Rattle.pt_content.specs.pt_attrs.Look.{object_of};
ghost use Rattle.pt_sequences.specs.Ranges.{range_value};
ghost use Rattle.pt_sequences.specs.Unpacking.{char_texts, chars_content, integers_content};
ghost use Rattle.pt_sequences.specs.Unpacking.{integers_from, items_content, mismatch};
ghost use Rattle.pt_sequences.specs.Unpacking.{unpack_content, unpacked, values};

use crate::cursor::{asked_or, text_of_char};
use crate::range::{range_length, range_value};
use pt_base::{Memory, Seq, What};
use pt_content::{Change, Content, Helper, NewObject, PrimAns, VALUE_ERROR, object_of, raise};
use pt_heap::{Heap, Object, Range, Value};
use pt_strs::{Scan, char_count};
use std::alloc::Global;

/// What is said of more or fewer values than are wanted.
fn mismatch(alloc: Global, wanted: u32, there: u128) -> Result<Option<Content>, Memory>
    ensures { IfOk result (λ content. content ≡ mismatch wanted there) }
{
    let wanted = wanted as u128;
    if wanted < there {
        let content = raise(alloc, VALUE_ERROR, "too many values to unpack")?;
        return Ok(Some(content));
    }
    if there < wanted {
        let content = raise(alloc, VALUE_ERROR, "not enough values to unpack")?;
        return Ok(Some(content));
    }
    Ok(None)
}

/// Values that are there.
fn values(alloc: Global, items: Seq<Value>) -> Content
    ensures { result ≡ values items }
{
    Content::Changed {
        change: Change {
            replacement: None,
            objects: Seq::new(alloc),
        },
        answer: PrimAns::Values(items),
    }
}

fn items_content(alloc: Global, count: u32, items: &[Value]) -> Result<Content, Memory>
    ensures { IfOk result (λ content. content ≡ items_content count items.now) }
{
    match mismatch(alloc, count, items.len() as u128)? {
        Some(content) => Ok(content),
        None => Ok(values(alloc, Seq::from_slice(alloc, items)?)),
    }
}

/// Puts the integer at a place of a range behind the others.
fn push_integer(items: &mut Seq<Value>, range: Range, place: u128) -> Result<(), Memory>
    ensures { OnOk result (items.new ≡ items.old ++ option_to_list (range_value range place)) }
{
    match range_value(range, place) {
        Some(item) => items.push(item),
        None => Ok(()),
    }
}

/// The integers of a range at so many places from one on.
pub fn integers(alloc: Global, range: Range, first: u64, count: u64) -> Result<Seq<Value>, Memory>
    ensures { IfOk result (λ items. items ≡ integers_from range first count) }
{
    let mut items = Seq::new(alloc);
    for place in 0..count {
        push_integer(&mut items, range, first as u128 + place as u128)?;
    }
    Ok(items)
}

fn integers_content(alloc: Global, count: u32, range: Range) -> Result<Content, Memory>
    ensures { IfOk result (λ content. content ≡ integers_content count range) }
{
    match mismatch(alloc, count, range_length(range))? {
        Some(content) => Ok(content),
        None => Ok(values(alloc, integers(alloc, range, 0, count as u64)?)),
    }
}

/// Each character as a text of its own.
fn char_texts(alloc: Global, text: &str) -> Result<Seq<NewObject>, Memory>
    ensures { IfOk result (λ texts. texts ≡ char_texts (chars text.now)) }
{
    let mut texts = Seq::new(alloc);
    let mut scan = Scan::new(text);
    while let Some(c) = scan.next() {
        texts.push(NewObject::Text(text_of_char(alloc, c)?))?;
    }
    Ok(texts)
}

fn chars_content(alloc: Global, count: u32, text: &str) -> Result<Content, Memory>
    ensures { IfOk result (λ content. content ≡ chars_content count (chars text.now)) }
{
    match mismatch(alloc, count, char_count(text) as u128)? {
        Some(content) => Ok(content),
        None => Ok(Content::NewValues(char_texts(alloc, text)?)),
    }
}

/// So many items of a value (Language Reference 7.2), of a list, tuple, range or text. A ValueError
/// for another number of items, a TypeError for what isn't iterable.
pub fn unpack_content(
    alloc: Global,
    heap: &Heap,
    count: u32,
    value: Value,
) -> Result<Content, Memory>
    ensures { IfOk result (λ content. content ≡ unpack_content heap.now count value) }
{
    match object_of(heap, value) {
        Some(Object::List(items)) => items_content(alloc, count, items.as_slice()),
        Some(Object::Tuple(items)) => items_content(alloc, count, items.as_slice()),
        Some(Object::Range(range)) => integers_content(alloc, count, *range),
        Some(Object::Str(text)) => chars_content(alloc, count, text.text().as_str()),
        Some(Object::Dict(_)) => Ok(Content::Outside(What::Feature)),
        Some(Object::Set(_)) => Ok(Content::Outside(What::Feature)),
        Some(Object::View(_)) => Ok(Content::Outside(What::Feature)),
        Some(Object::Cursor(_)) => Ok(Content::Outside(What::Feature)),
        Some(Object::Generator(_)) => Ok(Content::Help {
            helper: Helper::TakeOf(count),
            inverted: false,
        }),
        _ => asked_or(alloc, Helper::TakeOf(count), "iterable", heap, value),
    }
}
