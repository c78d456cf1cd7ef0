use crate::no_row::NoRow;
use crate::operands::object_word;
use pt_attrs::object_of;
use pt_content::{Content, Helper, NewObject, name_at};
use pt_heap::{Heap, Object, Value};
use pt_strs::char_count;
use test_notation::show;

/// The most characters that are written of a text.
const SHOWN: usize = 200;

/// Writes a text; of a long one its length alone.
fn write_text(line: &mut String, text: &str) -> Result<(), NoRow> {
    let count = char_count(text);
    if count > SHOWN {
        write!(line, "#{count}")?;
        return Ok(());
    }
    show(line, text)?;
    Ok(())
}

/// Writes a value that is no container.
fn write_value(line: &mut String, heap: &Heap, value: Value) -> Result<(), NoRow> {
    match value {
        Value::None => line.push_str("n")?,
        Value::Bool(true) => line.push_str("t")?,
        Value::Bool(false) => line.push_str("f")?,
        Value::Int(number) => write!(line, "i{number}")?,
        Value::Ellipsis => line.push_str("e")?,
        Value::NotImplemented => line.push_str("N")?,
        Value::Obj(id) => match (object_of(heap, value), object_word(id)) {
            (Some(Object::Str(text)), _) => {
                line.push_str("s")?;
                write_text(line, text.text().as_str())?;
            }
            (_, Some(word)) => line.push_str(word)?,
            _ => return Err(NoRow),
        },
    }
    Ok(())
}

/// Writes values with commas between them, between a name and a bracket.
fn write_values(line: &mut String, heap: &Heap, name: &str, values: &[Value]) -> Result<(), NoRow> {
    line.push_str(name)?;
    let mut is_behind = false;
    for value in values {
        if is_behind {
            line.push_str(",")?;
        }
        write_value(line, heap, *value)?;
        is_behind = true;
    }
    line.push_str(")")?;
    Ok(())
}

/// Writes a new object.
fn write_new(line: &mut String, heap: &Heap, new: &NewObject) -> Result<(), NoRow> {
    match new {
        NewObject::Text(text) => {
            line.push_str("s")?;
            write_text(line, text.as_str())?;
        }
        NewObject::List(items) => write_values(line, heap, "list(", items.as_slice())?,
        NewObject::Tuple(items) => write_values(line, heap, "tuple(", items.as_slice())?,
        NewObject::Range(range) => {
            write!(line, "range({},{},{})", range.start, range.stop, range.step)?;
        }
        NewObject::Slice(slice) => {
            write_values(line, heap, "slice(", &[slice.start, slice.stop, slice.step])?;
        }
        _ => return Err(NoRow),
    }
    line.push_str(" new")?;
    Ok(())
}

/// Writes a list of new texts, which stand before it.
fn write_texts(line: &mut String, objects: &[NewObject]) -> Result<(), NoRow> {
    let mut is_behind = false;
    line.push_str("list(")?;
    for object in objects {
        if let NewObject::Text(text) = object {
            line.push_str(if is_behind { ",s" } else { "s" })?;
            write_text(line, text.as_str())?;
            is_behind = true;
        }
    }
    line.push_str(") new")?;
    Ok(())
}

fn write_helper(line: &mut String, helper: Helper) -> Result<(), NoRow> {
    let name = match helper {
        Helper::StrOf => "str",
        Helper::ReprOf => "repr",
        Helper::JoinOf => "join",
        _ => return Err(NoRow),
    };
    write!(line, "help {name}")?;
    Ok(())
}

/// Writes what an operation gives.
pub fn write_content(line: &mut String, heap: &Heap, content: &Content) -> Result<(), NoRow> {
    match content {
        Content::Value(value) => write_value(line, heap, *value),
        Content::New(new) => write_new(line, heap, new),
        Content::Changed { change, .. } => write_texts(line, change.objects.as_slice()),
        Content::Raise { class, text } => {
            line.push_str(name_at(heap, *class))?;
            line.push_str(": ")?;
            write_text(line, text.as_str())
        }
        Content::Help { helper, .. } => write_helper(line, *helper),
        Content::Outside(what) => {
            write!(line, "outside {what}")?;
            Ok(())
        }
        Content::NewValues(_) => Err(NoRow),
        Content::Print(_) => Err(NoRow),
    }
}
