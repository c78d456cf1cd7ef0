ghost use Rattle.std.specs.Prelude.{◌≡◌, ◌++◌, ◌-◌, [], drop, length, map, slice_get, take};
ghost use Rattle.std.specs.Prelude.{◌+◌, false, if◌then◌else◌, IfOk, OnOk};
ghost use Rattle.std.specs.Str.{chars};
ghost use Rattle.pt_sequences.specs.Cursors.{chars_from};
ghost use Rattle.pt_sequences.specs.Ranges.{range_length};
ghost use Rattle.pt_sequences.specs.Unpacking.{integers_from};
ghost use Rattle.pt_views.specs.Cursors.{dict_at};
ghost use Rattle.pt_views.specs.Unpacking.{entry_item, entry_items, item_by, items_from, least};
ghost use Rattle.pt_views.specs.Unpacking.{new_in, new_of, new_value, place_behind, size_of};
ghost use Rattle.pt_views.specs.Unpacking.{there, value_of, values_in, view_items};
ghost use Rattle.pt_views.specs.declared.items.Item.TheVariants as item;

use crate::cursor::dict_at;
use pt_base::{Memory, ObjId, Seq};
use pt_content::NewObject;
use pt_dicts::object_at;
use pt_heap::{Dict, DictView, Entries, Heap, Object, Part, Range, Value};
use pt_sequences::{integers, range_length, text_of_char};
use pt_strs::Scan;
use std::alloc::Global;

/// An item of an iterable value.
#[derive(Clone, Copy, Debug)]
pub enum Item {
    /// A value that is there.
    There(Value),
    /// A character, which is to be a new text.
    Char(char),
    /// A key and its value, which are to be a new tuple.
    Pair(Value, Value),
}

/// Values from a place on.
fn values_from(values: &[Value], place: u64) -> &[Value]
    ensures { result.now ≡ drop place values.now }
{
    if place < values.len() as u64 {
        let (_, rest) = values.split_at(place as usize);
        return rest;
    }
    &[]
}

/// So many first values at most.
fn first_values(values: &[Value], most: u64) -> &[Value]
    ensures { result.now ≡ take most values.now }
{
    if most < values.len() as u64 {
        let (first, _) = values.split_at(most as usize);
        return first;
    }
    values
}

fn there(alloc: Global, values: &[Value]) -> Result<Seq<Item>, Memory>
    ensures { IfOk result (λ items. items ≡ there values.now) }
{
    let mut items = Seq::new(alloc);
    for value in values {
        items.push(Item::There(*value))?;
    }
    Ok(items)
}

/// So many first characters of a text at most.
fn first_chars(alloc: Global, text: &str, most: u64) -> Result<Seq<Item>, Memory>
    ensures { IfOk result
        (λ items. items ≡ map (λ c. item.Char c) (take most (chars text.now))) }
{
    let mut items = Seq::new(alloc);
    let mut left = Scan::new(text);
    for _taken in 0..most {
        match left.next() {
            Some(c) => items.push(Item::Char(c))?,
            None => return Ok(items),
        }
    }
    Ok(items)
}

/// A text from a byte on, or nothing where no character begins there.
fn from_byte(text: &str, place: u64) -> &str
    ensures { chars result.now ≡ chars_from text.now place }
{
    match text.split_at_checked(place as usize) {
        Some((_, rest)) => rest,
        None => "",
    }
}

/// So many characters of a text at most from a byte on.
fn chars_at(alloc: Global, text: &str, most: u64, place: u64) -> Result<Seq<Item>, Memory>
    ensures { IfOk result
        (λ items. items ≡ map (λ c. item.Char c) (take most (chars_from text.now place))) }
{
    first_chars(alloc, from_byte(text, place), most)
}

/// How many integers of a range there are from a place on, so many at most.
fn integers_left(range: Range, most: u64, place: u64) -> u64
    ensures { result ≡ least most (range_length range - place) }
{
    let left = range_length(range).saturating_sub(place as u128);
    if (most as u128) < left {
        return most;
    }
    left as u64
}

fn item_by(part: Part, first: Value, value: Value) -> Item
    ensures { result ≡ item_by part first value }
{
    match part {
        Part::Keys => Item::There(first),
        Part::Values => Item::There(value),
        Part::Items => Item::Pair(first, value),
    }
}

/// Passes so many entries. Answers false where there are fewer.
fn pass(left: &mut Entries<'_>, count: u64) -> bool
    ensures { (if result then left.new else []) ≡ drop count left.old }
{
    for _passed in 0..count {
        match left.next() {
            Some(_) => {}
            None => return false,
        }
    }
    true
}

/// So many first entries at most.
fn first_entries(
    alloc: Global,
    left: &mut Entries<'_>,
    part: Part,
    most: u64,
) -> Result<Seq<Item>, Memory>
    ensures { IfOk result (λ items. items ≡ map (entry_item part) (take most left.old)) }
{
    let mut items = Seq::new(alloc);
    for _taken in 0..most {
        match left.next() {
            Some(entry) => items.push(item_by(part, entry.first, entry.value))?,
            None => return Ok(items),
        }
    }
    Ok(items)
}

/// So many entries of a dictionary at most from a place on.
fn entries(
    alloc: Global,
    dict: &Dict,
    part: Part,
    most: u64,
    place: u64,
) -> Result<Seq<Item>, Memory>
    ensures { IfOk result (λ items. items ≡ entry_items most place part dict.now) }
{
    let mut left = dict.entries();
    if pass(&mut left, place) {
        return first_entries(alloc, &mut left, part, most);
    }
    Ok(Seq::new(alloc))
}

fn view_items(
    alloc: Global,
    heap: &Heap,
    view: DictView,
    most: u64,
    place: u64,
) -> Result<Seq<Item>, Memory>
    ensures { IfOk result
        (λ items. items ≡ view_items most place view.part (dict_at heap.now view.dict)) }
{
    match dict_at(heap, view.dict) {
        Some(dict) => entries(alloc, dict, view.part, most, place),
        None => Ok(Seq::new(alloc)),
    }
}

/// So many integers of a range at most from a place on.
fn range_items(alloc: Global, range: Range, most: u64, place: u64) -> Result<Seq<Item>, Memory>
    ensures { IfOk result (λ items. items
        ≡ there (integers_from range place (least most (range_length range - place)))) }
{
    let values = integers(alloc, range, place, integers_left(range, most, place))?;
    there(alloc, values.as_slice())
}

/// So many values at most from a place on.
fn value_items(alloc: Global, values: &[Value], most: u64, place: u64) -> Result<Seq<Item>, Memory>
    ensures { IfOk result (λ items. items ≡ there (take most (drop place values.now))) }
{
    there(alloc, first_values(values_from(values, place), most))
}

/// So many items at most of an object, from a place on, which is that of a cursor.
pub fn items_from(
    alloc: Global,
    heap: &Heap,
    id: ObjId,
    most: u64,
    place: u64,
) -> Result<Seq<Item>, Memory>
    ensures { IfOk result
        (λ items. items ≡ items_from heap.now most place (slice_get heap.now id.0)) }
{
    match object_at(heap, id) {
        Some(Object::List(values)) => value_items(alloc, values.as_slice(), most, place),
        Some(Object::Tuple(values)) => value_items(alloc, values.as_slice(), most, place),
        Some(Object::Str(text)) => chars_at(alloc, text.text().as_str(), most, place),
        Some(Object::Range(range)) => range_items(alloc, *range, most, place),
        Some(Object::Dict(dict)) => entries(alloc, dict, Part::Keys, most, place),
        Some(Object::Set(set)) => entries(alloc, set, Part::Keys, most, place),
        Some(Object::View(view)) => view_items(alloc, heap, *view, most, place),
        _ => Ok(Seq::new(alloc)),
    }
}

/// The text of a character, the tuple of a key and a value.
fn push_new(alloc: Global, objects: &mut Seq<NewObject>, item: Item) -> Result<(), Memory>
    ensures { OnOk result (objects.new ≡ objects.old ++ new_of item) }
{
    match item {
        Item::There(_) => Ok(()),
        Item::Char(c) => objects.push(NewObject::Text(text_of_char(alloc, c)?)),
        Item::Pair(first, value) => {
            let pair = Seq::from_slice(alloc, &[first, value])?;
            objects.push(NewObject::Tuple(pair))
        }
    }
}

/// What is new among items.
pub fn new_in(alloc: Global, items: &[Item]) -> Result<Seq<NewObject>, Memory>
    ensures { IfOk result (λ objects. objects ≡ new_in items.now) }
{
    let mut objects = Seq::new(alloc);
    for item in items {
        push_new(alloc, &mut objects, *item)?;
    }
    Ok(objects)
}

/// An item as a value, where what is new stands at a place.
fn value_of(place: u32, item: Item) -> Value
    ensures { result ≡ value_of place item }
{
    match item {
        Item::There(value) => value,
        Item::Char(_) | Item::Pair(_, _) => Value::Obj(ObjId(place)),
    }
}

/// The place behind what is new of an item. No heap has memory for more objects than a number of 32
/// bits counts.
fn place_after(place: u32, item: Item) -> Result<u32, Memory>
    ensures { IfOk result (λ next. next ≡ place + length (new_of item)) }
{
    match item {
        Item::There(_) => Ok(place),
        Item::Char(_) | Item::Pair(_, _) => match place.checked_add(1) {
            Some(next) => Ok(next),
            None => Err(Memory),
        },
    }
}

/// Each item as a value, where what is new stands from a place on.
pub fn values_in(alloc: Global, place: u32, items: &[Item]) -> Result<Seq<Value>, Memory>
    ensures { IfOk result (λ values. values ≡ values_in place items.now) }
{
    let mut values = Seq::new(alloc);
    let mut at = place;
    for item in items {
        values.push(value_of(at, *item))?;
        at = place_after(at, *item)?;
    }
    Ok(values)
}

/// What stands so many places behind another.
pub fn new_value(place: u32, behind: usize) -> Result<Value, Memory>
    ensures { IfOk result (λ value. value ≡ new_value (place + behind)) }
{
    let at = place as u128 + behind as u128;
    if at > u32::MAX as u128 {
        return Err(Memory);
    }
    Ok(Value::Obj(ObjId(at as u32)))
}

/// How far an item moves the place of a cursor: that of a text counts bytes.
fn size_of(item: Item) -> u64
    ensures { result ≡ size_of item }
{
    match item {
        Item::Char(c) => c.len_utf8() as u64,
        Item::There(_) | Item::Pair(_, _) => 1,
    }
}

/// The place of a cursor behind items.
pub fn place_behind(items: &[Item], place: u64) -> u64
    ensures { result ≡ place_behind items.now place }
{
    let mut at = place;
    for item in items {
        at = at.saturating_add(size_of(*item));
    }
    at
}
