use crate::heap::INSTANCES;
use crate::no_row::NoRow;
use crate::objects::World;
use pt_base::ObjId;
use pt_content::{Helper, PrimAns};
use pt_dicts::{class_at, object_at};
use pt_heap::{Cursor, Dict, Object, Part, Value};

/// The number of an object among those that were made.
fn number_of(world: &World, id: ObjId) -> Option<usize> {
    for number in 0..world.made.len() {
        if world.made.as_slice().get(number) == Some(&id) {
            return Some(number);
        }
    }
    None
}

/// Writes an object by its word, or by its number among those that were made.
fn write_object(line: &mut String, world: &World, id: ObjId) -> Result<(), NoRow> {
    if let Some(Object::Str(text)) = object_at(&world.heap, id) {
        line.push_str("s")?;
        line.push_str(text.text().as_str())?;
        return Ok(());
    }
    for row in &INSTANCES {
        if row.1 == id.0 {
            line.push_str(row.0)?;
            return Ok(());
        }
    }
    match number_of(world, id) {
        Some(number) => {
            write!(line, "#{number}")?;
            Ok(())
        }
        None => Err(NoRow),
    }
}

fn write_value(line: &mut String, world: &World, value: Value) -> Result<(), NoRow> {
    match value {
        Value::None => line.push_str("n")?,
        Value::Bool(true) => line.push_str("t")?,
        Value::Bool(false) => line.push_str("f")?,
        Value::Int(number) => write!(line, "i{number}")?,
        Value::Ellipsis => line.push_str("e")?,
        Value::NotImplemented => line.push_str("N")?,
        Value::Obj(id) => write_object(line, world, id)?,
    }
    Ok(())
}

/// Whether an object has a word or a number, or is a text.
fn is_known(world: &World, id: ObjId) -> bool {
    if let Some(Object::Str(_)) = object_at(&world.heap, id) {
        return true;
    }
    for row in &INSTANCES {
        if row.1 == id.0 {
            return true;
        }
    }
    number_of(world, id).is_some()
}

/// Writes a value that a step gives. An object that is seen for the first time gets a number.
fn write_given(line: &mut String, world: &mut World, value: Value) -> Result<(), NoRow> {
    if let Value::Obj(id) = value {
        if !is_known(world, id) {
            world.made.push(id)?;
            line.push_str("new ")?;
        }
    }
    write_value(line, world, value)
}

fn write_error(line: &mut String, world: &World, class: ObjId, arg: Value) -> Result<(), NoRow> {
    let Some(class) = class_at(&world.heap, class) else {
        return Err(NoRow);
    };
    line.push_str(class.name.as_str())?;
    line.push_str(": ")?;
    write_value(line, world, arg)
}

/// Writes what a step answers.
pub fn write_answer(line: &mut String, world: &mut World, answer: &PrimAns) -> Result<(), NoRow> {
    match answer {
        PrimAns::Value(value) => write_given(line, world, *value),
        PrimAns::Raise {
            class,
            arg: Some(arg),
        } => write_error(line, world, *class, *arg),
        PrimAns::Help {
            helper: Helper::UpdateOf,
            ..
        } => {
            line.push_str("help update")?;
            Ok(())
        }
        PrimAns::Help {
            helper: Helper::IterOf,
            ..
        } => {
            line.push_str("help iter")?;
            Ok(())
        }
        PrimAns::Outside { what } => {
            write!(line, "outside {what}")?;
            Ok(())
        }
        PrimAns::End => {
            line.push_str("end")?;
            Ok(())
        }
        _ => Err(NoRow),
    }
}

/// Writes entries, of a set without what stands behind its items.
fn write_entries(line: &mut String, world: &World, dict: &Dict, is_set: bool) -> Result<(), NoRow> {
    line.push_str("{")?;
    for place in 0..dict.len() {
        let Some((first, value)) = dict.at(place) else {
            return Err(NoRow);
        };
        if place > 0 {
            line.push_str(", ")?;
        }
        write_value(line, world, first)?;
        if !is_set {
            line.push_str(": ")?;
            write_value(line, world, value)?;
        }
    }
    line.push_str("}")?;
    Ok(())
}

fn write_items(line: &mut String, world: &World, items: &[Value]) -> Result<(), NoRow> {
    let mut is_behind = false;
    for item in items {
        if is_behind {
            line.push_str(", ")?;
        }
        write_value(line, world, *item)?;
        is_behind = true;
    }
    Ok(())
}

fn part_name(part: Part) -> &'static str {
    match part {
        Part::Keys => "keys ",
        Part::Values => "values ",
        Part::Items => "items ",
    }
}

fn write_cursor(line: &mut String, world: &World, cursor: Cursor) -> Result<(), NoRow> {
    write!(line, "iterator {} of {} over ", cursor.place, cursor.count)?;
    match cursor.over {
        Some(id) => write_object(line, world, id),
        None => {
            line.push_str("nothing")?;
            Ok(())
        }
    }
}

fn write_held(line: &mut String, world: &World, id: ObjId) -> Result<(), NoRow> {
    match object_at(&world.heap, id) {
        Some(Object::Dict(dict)) => write_entries(line, world, dict, false)?,
        Some(Object::Set(set)) => write_entries(line, world, set, true)?,
        Some(Object::Tuple(items)) => {
            line.push_str("(")?;
            write_items(line, world, items.as_slice())?;
            line.push_str(")")?;
        }
        Some(Object::List(items)) => {
            line.push_str("[")?;
            write_items(line, world, items.as_slice())?;
            line.push_str("]")?;
        }
        Some(Object::View(view)) => {
            line.push_str(part_name(view.part))?;
            write_object(line, world, view.dict)?;
        }
        Some(Object::Cursor(cursor)) => write_cursor(line, world, *cursor)?,
        _ => return Err(NoRow),
    }
    Ok(())
}

/// Writes what the objects that were made hold.
pub fn write_made(line: &mut String, world: &World) -> Result<(), NoRow> {
    for id in world.made.as_slice() {
        line.push_str(" | ")?;
        write_held(line, world, *id)?;
    }
    Ok(())
}
