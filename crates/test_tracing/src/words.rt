//! The words of a row, and how answers are written.
use crate::no_row::NoRow;
use pt_heap::Value;

pub type Answered = Result<(), NoRow>;

pub fn number(word: &str) -> Result<u32, NoRow> {
    word.parse::<u32>().map_err(|_| NoRow)
}

pub fn integer(word: &str) -> Result<i128, NoRow> {
    word.parse::<i128>().map_err(|_| NoRow)
}

/// An integer, or `-` for None.
pub fn value(word: &str) -> Result<Value, NoRow> {
    if word == "-" {
        return Ok(Value::None);
    }
    Ok(Value::Int(integer(word)?))
}

pub fn show_value(line: &mut String, value: Value) -> Answered {
    match value {
        Value::None => line.push_str(" -")?,
        Value::Int(n) => write!(line, " {n}")?,
        _ => return Err(NoRow),
    }
    Ok(())
}

/// A value, or `-` where there is none.
pub fn show_some(line: &mut String, value: Option<Value>) -> Answered {
    show_value(line, value.unwrap_or(Value::None))
}

pub fn show_bool(line: &mut String, is_so: bool) -> Answered {
    line.push_str(if is_so { " yes" } else { " no" })?;
    Ok(())
}

pub fn show_done(line: &mut String) -> Answered {
    line.push_str(" ok")?;
    Ok(())
}
