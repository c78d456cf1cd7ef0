use crate::no_row::NoRow;
use pt_base::{BlockId, ObjId, Seq, Text};
use pt_builtin_objects::start;
use pt_dicts::key_of;
use pt_heap::{
    Class, Cursor, Dict, DictView, Error, Function, Heap, Instance, Object, Part, Range, Seed,
    Slice, Str, Value,
};
use std::alloc::Global;

/// Where the object of a word stands.
const PLACES: [(&str, u32); 34] = [
    ("C", 2),
    ("P", 47),
    ("O", 75),
    ("M", 77),
    ("F", 85),
    ("G", 86),
    ("L", 87),
    ("T", 88),
    ("D", 89),
    ("S", 90),
    ("R", 91),
    ("V", 92),
    ("E", 93),
    ("X", 95),
    ("Y", 97),
    ("oE", 98),
    ("oA", 100),
    ("oB", 102),
    ("oT", 104),
    ("oI", 105),
    ("oJ", 106),
    ("oQ", 107),
    ("oU", 109),
    ("oX", 110),
    ("oY", 111),
    ("oS", 112),
    ("oP", 113),
    ("oO", 114),
    ("oW", 118),
    ("oR", 119),
    ("oM", 120),
    ("oN", 121),
    ("oK", 122),
    ("oL", 123),
];

/// Where the iterator of a word stands.
const ITERATORS: [(&str, u32); 5] = [
    ("oC", 125),
    ("oZ", 127),
    ("oF", 129),
    ("oH", 131),
    ("oV", 132),
];

/// Where the dictionary, slice, list or tuple of a word stands that is compared or asked for classes.
const COMPARED: [(&str, u32); 20] = [
    ("oD", 134),
    ("oDe", 136),
    ("oDk", 137),
    ("oDl", 139),
    ("oDv", 140),
    ("oDx", 141),
    ("oLa", 142),
    ("oLb", 144),
    ("oLc", 145),
    ("oG", 146),
    ("oGa", 147),
    ("oGb", 149),
    ("oGc", 151),
    ("oGd", 155),
    ("oGm", 157),
    ("oKa", 158),
    ("oKb", 161),
    ("oKc", 162),
    ("oKd", 163),
    ("oKe", 167),
];

fn seed() -> Seed {
    Seed::of(b"operations")
}

fn function(alloc: Global, block: u32) -> Object {
    Object::Function(Function {
        block: BlockId(block),
        hidden: false,
        defaults: Seq::new(alloc),
        cells: Seq::new(alloc),
    })
}

fn class(alloc: Global, name: &str, base: u32) -> Result<Object, NoRow> {
    let name = Text::from_str(alloc, name)?;
    Ok(Object::Class(Class {
        name,
        base: Some(ObjId(base)),
        scripted: true,
        names: Dict::new(alloc, seed()),
    }))
}

fn instance(alloc: Global, class: u32) -> Object {
    Object::Instance(Instance {
        class: ObjId(class),
        names: Dict::new(alloc, seed()),
    })
}

fn error(alloc: Global, class: u32) -> Object {
    Object::Error(Error {
        class: ObjId(class),
        args: Seq::new(alloc),
        cause: None,
        context: None,
        hides_context: false,
        trace: Seq::new(alloc),
        names: Dict::new(alloc, seed()),
    })
}

fn text(alloc: Global, text: &str) -> Result<Object, NoRow> {
    Ok(Object::Str(Str::new(Text::from_str(alloc, text)?)))
}

fn list(alloc: Global, items: &[Value]) -> Result<Object, NoRow> {
    Ok(Object::List(Seq::from_slice(alloc, items)?))
}

fn tuple(alloc: Global, items: &[Value]) -> Result<Object, NoRow> {
    Ok(Object::Tuple(Seq::from_slice(alloc, items)?))
}

fn dict(alloc: Global, heap: &Heap, entries: &[(Value, Value)]) -> Result<Object, NoRow> {
    let mut dict = Dict::new(alloc, seed());
    for entry in entries {
        let Ok(key) = key_of(alloc, heap, entry.0) else {
            return Err(NoRow);
        };
        let Ok(_) = dict.insert(key, entry.0, entry.1) else {
            return Err(NoRow);
        };
    }
    Ok(Object::Dict(dict))
}

fn slice(start: Value, stop: Value, step: Value) -> Object {
    Object::Slice(Slice { start, stop, step })
}

fn range(start: i128, stop: i128, step: i128) -> Object {
    Object::Range(Range { start, stop, step })
}

fn cursor(over: Option<u32>, place: u64) -> Object {
    let over = match over {
        Some(id) => Some(ObjId(id)),
        None => None,
    };
    Object::Cursor(Cursor {
        over,
        place,
        count: 0,
    })
}

/// The value at a place.
fn at(place: u32) -> Value {
    Value::Obj(ObjId(place))
}

fn int(number: i128) -> Value {
    Value::Int(number)
}

/// From place 85 on.
fn add_plain(alloc: Global, heap: &mut Heap) -> Result<(), NoRow> {
    heap.add(function(alloc, 1))?;
    heap.add(function(alloc, 2))?;
    heap.add(list(alloc, &[int(1)])?)?;
    heap.add(Object::Tuple(Seq::new(alloc)))?;
    let dict = heap.add(Object::Dict(Dict::new(alloc, seed())))?;
    heap.add(Object::Set(Dict::new(alloc, seed())))?;
    heap.add(range(0, 3, 1))?;
    heap.add(Object::View(DictView {
        part: Part::Keys,
        dict,
    }))?;
    Ok(())
}

/// From place 93 on.
fn add_instances(alloc: Global, heap: &mut Heap) -> Result<(), NoRow> {
    heap.add(error(alloc, 46))?;
    heap.add(class(alloc, "Scripted", 0)?)?;
    heap.add(instance(alloc, 94))?;
    heap.add(class(alloc, "ScriptedError", 29)?)?;
    heap.add(error(alloc, 96))?;
    Ok(())
}

/// From place 98 on.
fn add_texts(alloc: Global, heap: &mut Heap) -> Result<(), NoRow> {
    heap.add(Object::List(Seq::new(alloc)))?;
    heap.add(text(alloc, "ab")?)?;
    heap.add(list(alloc, &[int(1), at(99), Value::None])?)?;
    heap.add(text(alloc, "ab")?)?;
    heap.add(list(alloc, &[int(1), at(101), Value::None])?)?;
    heap.add(text(alloc, "ab")?)?;
    heap.add(tuple(alloc, &[int(1), at(103), Value::None])?)?;
    Ok(())
}

/// From place 105 on.
fn add_lists(alloc: Global, heap: &mut Heap) -> Result<(), NoRow> {
    heap.add(list(alloc, &[Value::Bool(true), int(2)])?)?;
    heap.add(list(alloc, &[int(1), int(2)])?)?;
    heap.add(list(alloc, &[at(87)])?)?;
    heap.add(list(alloc, &[int(1)])?)?;
    heap.add(list(alloc, &[at(108)])?)?;
    heap.add(list(alloc, &[at(95)])?)?;
    heap.add(tuple(alloc, &[at(95)])?)?;
    Ok(())
}

/// From place 112 on.
fn add_nested(alloc: Global, heap: &mut Heap) -> Result<(), NoRow> {
    heap.add(list(alloc, &[at(112)])?)?;
    heap.add(list(alloc, &[at(113)])?)?;
    heap.add(tuple(alloc, &[int(3)])?)?;
    heap.add(list(alloc, &[int(1)])?)?;
    heap.add(text(alloc, "h\u{e9}")?)?;
    heap.add(tuple(alloc, &[int(2), at(116)])?)?;
    heap.add(tuple(alloc, &[at(115), at(117)])?)?;
    Ok(())
}

/// From place 119 on.
fn add_ranges(heap: &mut Heap) -> Result<(), NoRow> {
    heap.add(range(0, 10, 3))?;
    heap.add(range(0, 12, 3))?;
    heap.add(range(5, 5, 1))?;
    heap.add(range(7, 0, -2))?;
    heap.add(slice(Value::None, Value::None, Value::None))?;
    Ok(())
}

/// From place 124 on.
fn add_iterators(alloc: Global, heap: &mut Heap) -> Result<(), NoRow> {
    heap.add(list(alloc, &[int(4), int(5)])?)?;
    heap.add(cursor(Some(124), 1))?;
    heap.add(text(alloc, "h\u{e9}l")?)?;
    heap.add(cursor(Some(126), 1))?;
    heap.add(range(9, 1, -3))?;
    heap.add(cursor(Some(128), 1))?;
    heap.add(tuple(alloc, &[int(6)])?)?;
    heap.add(cursor(Some(130), 1))?;
    heap.add(cursor(None, 0))?;
    Ok(())
}

fn add_dict(alloc: Global, heap: &mut Heap, entries: &[(Value, Value)]) -> Result<(), NoRow> {
    let object = dict(alloc, heap, entries)?;
    heap.add(object)?;
    Ok(())
}

/// From place 133 on.
fn add_dicts(alloc: Global, heap: &mut Heap) -> Result<(), NoRow> {
    heap.add(text(alloc, "a")?)?;
    add_dict(alloc, heap, &[(int(1), int(2)), (at(133), at(87))])?;
    heap.add(list(alloc, &[int(1)])?)?;
    add_dict(
        alloc,
        heap,
        &[(at(133), at(135)), (Value::Bool(true), int(2))],
    )?;
    let third = (Value::None, int(3));
    add_dict(alloc, heap, &[(int(1), int(2)), (at(133), at(87)), third])?;
    heap.add(text(alloc, "b")?)?;
    add_dict(alloc, heap, &[(int(1), int(2)), (at(138), at(87))])?;
    add_dict(alloc, heap, &[(int(1), int(3)), (at(133), at(87))])?;
    add_dict(alloc, heap, &[(int(1), at(95))])?;
    Ok(())
}

/// From place 142 on.
fn add_ordered(alloc: Global, heap: &mut Heap) -> Result<(), NoRow> {
    heap.add(slice(int(1), at(114), Value::None))?;
    heap.add(tuple(alloc, &[int(3)])?)?;
    heap.add(slice(int(1), at(143), Value::None))?;
    heap.add(slice(int(1), int(2), int(3)))?;
    heap.add(list(alloc, &[int(1), int(3)])?)?;
    heap.add(list(alloc, &[int(1), int(2), int(0)])?)?;
    heap.add(list(alloc, &[int(1), int(2)])?)?;
    heap.add(list(alloc, &[at(148), int(3)])?)?;
    heap.add(list(alloc, &[int(1), int(3)])?)?;
    heap.add(list(alloc, &[at(150), int(0)])?)?;
    heap.add(list(alloc, &[int(1)])?)?;
    heap.add(text(alloc, "b")?)?;
    heap.add(tuple(alloc, &[int(2), at(153)])?)?;
    heap.add(tuple(alloc, &[at(152), at(154)])?)?;
    heap.add(text(alloc, "x")?)?;
    heap.add(list(alloc, &[int(1), at(156)])?)?;
    Ok(())
}

/// From place 158 on: tuples of classes.
fn add_classes(alloc: Global, heap: &mut Heap) -> Result<(), NoRow> {
    heap.add(tuple(alloc, &[at(4), at(2)])?)?;
    heap.add(tuple(alloc, &[at(3)])?)?;
    heap.add(tuple(alloc, &[at(4), at(159)])?)?;
    heap.add(tuple(alloc, &[at(160), at(5)])?)?;
    heap.add(tuple(alloc, &[at(2), int(5)])?)?;
    heap.add(tuple(alloc, &[int(5), at(2)])?)?;
    heap.add(tuple(alloc, &[at(2)])?)?;
    heap.add(tuple(alloc, &[at(164)])?)?;
    heap.add(tuple(alloc, &[at(4), at(165)])?)?;
    heap.add(tuple(alloc, &[at(88), at(166)])?)?;
    Ok(())
}

/// The objects of a run's start, and behind them one for each word of the tables, with what those
/// hold.
pub fn heap_of_objects(alloc: Global) -> Result<Heap, NoRow> {
    let mut heap = start(alloc, seed())?;
    add_plain(alloc, &mut heap)?;
    add_instances(alloc, &mut heap)?;
    add_texts(alloc, &mut heap)?;
    add_lists(alloc, &mut heap)?;
    add_nested(alloc, &mut heap)?;
    add_ranges(&mut heap)?;
    add_iterators(alloc, &mut heap)?;
    add_dicts(alloc, &mut heap)?;
    add_ordered(alloc, &mut heap)?;
    add_classes(alloc, &mut heap)?;
    Ok(heap)
}

/// Where a table has the object of a word.
fn place_in(rows: &[(&str, u32)], word: &str) -> Option<u32> {
    for row in rows {
        if row.0 == word {
            return Some(row.1);
        }
    }
    None
}

/// The word of a place in a table.
fn word_in<'a>(rows: &[(&'a str, u32)], place: u32) -> Option<&'a str> {
    for row in rows {
        if row.1 == place {
            return Some(row.0);
        }
    }
    None
}

fn object_place(word: &str) -> Option<u32> {
    for rows in [&PLACES[..], &ITERATORS[..], &COMPARED[..]] {
        if let Some(place) = place_in(rows, word) {
            return Some(place);
        }
    }
    None
}

/// The word of the object at a place.
pub fn object_word(place: u32) -> Option<&'static str> {
    for rows in [&PLACES[..], &ITERATORS[..], &COMPARED[..]] {
        if let Some(word) = word_in(rows, place) {
            return Some(word);
        }
    }
    None
}

/// A text so many times.
fn repeated(alloc: Global, times: &str) -> Result<Text, NoRow> {
    let Some((count, piece)) = times.split_once("*") else {
        return Err(NoRow);
    };
    let Ok(count) = count.parse::<i128>() else {
        return Err(NoRow);
    };
    let piece = Text::from_str(alloc, piece)?;
    match pt_strs::repeat(alloc, &piece, count) {
        Ok(text) => Ok(text),
        Err(_) => Err(NoRow),
    }
}

/// A text, in which `_` stands for a blank.
fn blanked(alloc: Global, spelling: &str) -> Result<Text, NoRow> {
    let mut text = Text::new(alloc);
    let mut is_behind = false;
    for part in spelling.split("_") {
        if is_behind {
            text.push_str(" ")?;
        }
        text.push_str(part)?;
        is_behind = true;
    }
    Ok(text)
}

fn text_of(alloc: Global, spelling: &str) -> Result<Text, NoRow> {
    match spelling.strip_prefix("*") {
        Some(times) => repeated(alloc, times),
        None => blanked(alloc, spelling),
    }
}

/// So many lists inside one another.
fn nested(alloc: Global, heap: &mut Heap, depth: u32) -> Result<Value, NoRow> {
    let mut id = heap.add(Object::List(Seq::new(alloc)))?;
    for _inside in 1..depth {
        id = heap.add(list(alloc, &[Value::Obj(id)])?)?;
    }
    Ok(Value::Obj(id))
}

/// So many tuples around the class of integers.
fn around(alloc: Global, heap: &mut Heap, depth: u32) -> Result<Value, NoRow> {
    let mut value = at(2);
    for _inside in 0..depth {
        value = Value::Obj(heap.add(tuple(alloc, &[value])?)?);
    }
    Ok(value)
}

/// The value of a word that begins with `i`, `s`, `u`, `d` or `k`.
fn longer(alloc: Global, heap: &mut Heap, word: &str) -> Result<Value, NoRow> {
    match word.split_at_checked(1) {
        Some(("i", digits)) => match digits.parse::<i128>() {
            Ok(number) => Ok(Value::Int(number)),
            Err(_) => Err(NoRow),
        },
        Some(("s", spelling)) => {
            let text = text_of(alloc, spelling)?;
            Ok(Value::Obj(heap.add(Object::Str(Str::new(text)))?))
        }
        Some(("u", spelling)) => Ok(Value::Obj(heap.add(text(alloc, spelling)?)?)),
        Some(("d", digits)) => match digits.parse::<u32>() {
            Ok(depth) => nested(alloc, heap, depth),
            Err(_) => Err(NoRow),
        },
        Some(("k", digits)) => match digits.parse::<u32>() {
            Ok(depth) => around(alloc, heap, depth),
            Err(_) => Err(NoRow),
        },
        _ => Err(NoRow),
    }
}

/// The value of a word. Each text is an object of its own.
pub fn value_of(alloc: Global, heap: &mut Heap, word: &str) -> Result<Value, NoRow> {
    if let Some(place) = object_place(word) {
        return Ok(Value::Obj(ObjId(place)));
    }
    match word {
        "n" => Ok(Value::None),
        "t" => Ok(Value::Bool(true)),
        "f" => Ok(Value::Bool(false)),
        "e" => Ok(Value::Ellipsis),
        "N" => Ok(Value::NotImplemented),
        _ => longer(alloc, heap, word),
    }
}
