use crate::no_row::NoRow;
use crate::objects::object_word;
use crate::signs::{BINARY, COMPARISONS};
use pt_base::{BinOp, CompareOp, ObjId};
use pt_content::{Helper, Op, Operator, PrimAns};
use pt_dicts::{class_at, object_at};
use pt_heap::{Cursor, Dict, Heap, Object, Value};
use pt_strs::char_count;
use test_notation::show;

/// The most characters that are written of a text.
const SHOWN: usize = 200;

/// How deep what containers hold is written.
const DEPTH: u32 = 4;

/// A row with its operands, and the heap behind its operation.
#[derive(Clone, Copy)]
pub struct Row<'a> {
    pub words: &'a str,
    pub operands: &'a [Value],
    pub heap: &'a Heap,
    /// How many objects there were before.
    pub count: u32,
}

/// The word of an operand.
fn operand_word<'a>(row: Row<'a>, id: ObjId) -> Option<&'a str> {
    let mut words = row.words.split(" ");
    for operand in row.operands {
        let Some(word) = words.next() else {
            return None;
        };
        if *operand == Value::Obj(id) {
            return Some(word);
        }
    }
    None
}

/// Writes a text; of a long one its length alone.
fn write_text(line: &mut String, text: &str) -> Result<(), NoRow> {
    let count = char_count(text);
    if count > SHOWN {
        write!(line, "#{count}")?;
        return Ok(());
    }
    show(line, text)?;
    Ok(())
}

/// Writes items with commas between them.
#[cycle(items)]
fn write_items(line: &mut String, row: Row, items: &[Value], depth: u32) -> Result<(), NoRow> {
    if depth == 0 {
        line.push_str("..")?;
        return Ok(());
    }
    let mut is_behind = false;
    for item in items {
        if is_behind {
            line.push_str(",")?;
        }
        write_item(line, row, *item, depth - 1)?;
        is_behind = true;
    }
    Ok(())
}

/// Writes the items of a set with commas between them.
#[cycle(items)]
fn write_entries(line: &mut String, row: Row, set: &Dict, depth: u32) -> Result<(), NoRow> {
    if depth == 0 {
        line.push_str("..")?;
        return Ok(());
    }
    for place in 0..set.len() {
        if place > 0 {
            line.push_str(",")?;
        }
        if let Some((item, _)) = set.at(place) {
            write_item(line, row, item, depth - 1)?;
        }
    }
    Ok(())
}

/// Writes an iterator by what it goes over, and its place.
#[cycle(items)]
fn write_cursor(line: &mut String, row: Row, cursor: Cursor, depth: u32) -> Result<(), NoRow> {
    line.push_str("iterator(")?;
    match cursor.over {
        Some(id) => write_object(line, row, id, depth)?,
        None => line.push_str("nothing")?,
    }
    write!(line, ",{})", cursor.place)?;
    Ok(())
}

/// Writes a method by the value that it is bound to.
#[cycle(items)]
fn write_method(
    line: &mut String,
    row: Row,
    receiver: Option<Value>,
    depth: u32,
) -> Result<(), NoRow> {
    let Some(receiver) = receiver else {
        return Err(NoRow);
    };
    line.push_str("method(")?;
    write_item(line, row, receiver, depth)?;
    line.push_str(")")?;
    Ok(())
}

/// Writes what a container, a range or an iterator holds, or a method.
#[cycle(items)]
fn write_made(line: &mut String, row: Row, id: ObjId, depth: u32) -> Result<(), NoRow> {
    match object_at(row.heap, id) {
        Some(Object::List(items)) => {
            line.push_str("list(")?;
            write_items(line, row, items.as_slice(), depth)?;
            line.push_str(")")?;
        }
        Some(Object::Tuple(items)) => {
            line.push_str("tuple(")?;
            write_items(line, row, items.as_slice(), depth)?;
            line.push_str(")")?;
        }
        Some(Object::Set(set)) => {
            line.push_str("set(")?;
            write_entries(line, row, set, depth)?;
            line.push_str(")")?;
        }
        Some(Object::Range(range)) => {
            write!(line, "range({},{},{})", range.start, range.stop, range.step)?;
        }
        Some(Object::Cursor(cursor)) if depth > 0 => write_cursor(line, row, *cursor, depth - 1)?,
        Some(Object::Builtin(builtin)) if depth > 0 => {
            write_method(line, row, builtin.receiver, depth - 1)?;
        }
        _ => return Err(NoRow),
    }
    Ok(())
}

/// Writes an object: a text, one that has a word, or what it holds.
#[cycle(items)]
fn write_object(line: &mut String, row: Row, id: ObjId, depth: u32) -> Result<(), NoRow> {
    if let Some(Object::Str(text)) = object_at(row.heap, id) {
        line.push_str("s")?;
        return write_text(line, text.text().as_str());
    }
    if let Some(word) = object_word(id.0) {
        line.push_str(word)?;
        return Ok(());
    }
    if let Some(word) = operand_word(row, id) {
        line.push_str(word)?;
        return Ok(());
    }
    write_made(line, row, id, depth)
}

/// Writes a value.
#[cycle(items)]
fn write_item(line: &mut String, row: Row, value: Value, depth: u32) -> Result<(), NoRow> {
    match value {
        Value::None => line.push_str("n")?,
        Value::Bool(true) => line.push_str("t")?,
        Value::Bool(false) => line.push_str("f")?,
        Value::Int(number) => write!(line, "i{number}")?,
        Value::Ellipsis => line.push_str("e")?,
        Value::NotImplemented => line.push_str("N")?,
        Value::Obj(id) => write_object(line, row, id, depth)?,
    }
    Ok(())
}

/// Writes an object that was made.
fn write_new(line: &mut String, row: Row, id: ObjId) -> Result<(), NoRow> {
    match object_at(row.heap, id) {
        Some(Object::Str(_)) => write_object(line, row, id, DEPTH)?,
        _ => write_made(line, row, id, DEPTH)?,
    }
    line.push_str(" new")?;
    Ok(())
}

/// Writes a value that an operation gives.
fn write_value(line: &mut String, row: Row, value: Value) -> Result<(), NoRow> {
    let Value::Obj(id) = value else {
        return write_item(line, row, value, DEPTH);
    };
    if id.0 >= row.count {
        return write_new(line, row, id);
    }
    if let Some(class) = class_at(row.heap, id) {
        line.push_str("class ")?;
        line.push_str(class.name.as_str())?;
        return Ok(());
    }
    write_item(line, row, value, DEPTH)
}

fn write_error(line: &mut String, row: Row, class: ObjId, arg: Option<Value>) -> Result<(), NoRow> {
    let Some(class) = class_at(row.heap, class) else {
        return Err(NoRow);
    };
    line.push_str(class.name.as_str())?;
    match arg {
        Some(Value::Obj(id)) if id.0 == row.count => {
            line.push_str(": ")?;
            match object_at(row.heap, id) {
                Some(Object::Str(text)) => write_text(line, text.text().as_str()),
                _ => Err(NoRow),
            }
        }
        Some(key) => {
            line.push_str(": ")?;
            write_item(line, row, key, DEPTH)
        }
        None => Ok(()),
    }
}

/// The sign of a binary operator.
fn binary_sign(op: BinOp) -> &'static str {
    for row in &BINARY {
        if row.1 == op {
            return row.0;
        }
    }
    ""
}

/// The sign of a comparison.
fn comparison_sign(op: CompareOp) -> &'static str {
    for row in &COMPARISONS {
        if row.1 == op {
            return row.0;
        }
    }
    ""
}

fn write_helper(line: &mut String, helper: Helper) -> Result<(), NoRow> {
    line.push_str("help ")?;
    let name = match helper {
        Helper::BinaryOf(Operator::Binary(op)) => {
            write!(line, "binary {}", binary_sign(op))?;
            ""
        }
        Helper::BinaryOf(Operator::Compare(op)) => {
            write!(line, "compare {}", comparison_sign(op))?;
            ""
        }
        Helper::TakeOf(count) => {
            write!(line, "take {count}")?;
            ""
        }
        Helper::TruthOf => "truth",
        Helper::PrintOf => "print",
        Helper::StrOf => "str",
        Helper::ReprOf => "repr",
        Helper::LenOf => "len",
        Helper::IterOf => "iter",
        Helper::NextOf => "next",
        Helper::NextOrOf => "next_or",
        Helper::InOf => "in",
        Helper::SameOf => "same",
        Helper::PairsOf => "pairs",
        Helper::ExtendOf => "extend",
        _ => return Err(NoRow),
    };
    line.push_str(name)?;
    Ok(())
}

/// Writes the answer of an operation.
fn write_told(line: &mut String, row: Row, answer: &PrimAns) -> Result<(), NoRow> {
    match answer {
        PrimAns::Value(value) => write_value(line, row, *value)?,
        PrimAns::Values(values) => {
            line.push_str("values")?;
            for value in values.as_slice() {
                line.push_str(" ")?;
                write_item(line, row, *value, DEPTH)?;
            }
        }
        PrimAns::End => line.push_str("end")?,
        PrimAns::Raise { class, arg } => write_error(line, row, *class, *arg)?,
        PrimAns::Help {
            helper,
            inverted,
            ..
        } => {
            write_helper(line, *helper)?;
            line.push_str(if *inverted { " inverted" } else { "" })?;
        }
        PrimAns::Print { text } => {
            line.push_str("print ")?;
            write_text(line, text.as_str())?;
        }
        PrimAns::Outside { what } => write!(line, "outside {what}")?,
    }
    Ok(())
}

/// Whether an operation may change its first operand, which is a list or an iterator.
fn may_change(op: Op, is_list: bool) -> bool {
    match op {
        Op::InPlace(_) => true,
        Op::Next => true,
        Op::Call(pt_content::Function::Next) => true,
        Op::Unpack { .. } => !is_list,
        _ => false,
    }
}

/// Writes the answer of an operation, and what a list or an iterator is then that it may change.
pub fn write_answer(line: &mut String, row: Row, op: Op, answer: &PrimAns) -> Result<(), NoRow> {
    write_told(line, row, answer)?;
    let Some(Value::Obj(id)) = row.operands.first() else {
        return Ok(());
    };
    let is_list = match object_at(row.heap, *id) {
        Some(Object::List(_)) => true,
        Some(Object::Cursor(_)) => false,
        _ => return Ok(()),
    };
    if !may_change(op, is_list) {
        return Ok(());
    }
    line.push_str(" | ")?;
    write_made(line, row, *id, DEPTH)
}
