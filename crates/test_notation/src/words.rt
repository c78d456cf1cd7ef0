use pt_base::{Line, Text};
use std::alloc::AllocError;

/// What writing comes to: an error is want of memory.
pub type Printed = Result<(), AllocError>;

/// A word, behind a blank.
pub fn word(out: &mut String, text: &str) -> Printed {
    out.push_str(" ")?;
    out.push_str(text)
}

/// Begins a list with its name.
pub fn open(out: &mut String, name: &str) -> Printed {
    out.push_str(" (")?;
    out.push_str(name)
}

/// Ends a list.
pub fn close(out: &mut String) -> Printed {
    out.push_str(")")
}

/// The last two digits of a line's number.
pub fn at(out: &mut String, line: Line) -> Printed {
    let line = line.0 % 100;
    write!(out, " {}{}", line / 10, line % 10)
}

/// A name, or `-` where there is none.
pub fn optional_name(out: &mut String, name: &Option<Text>) -> Printed {
    match name {
        Some(name) => word(out, name.as_str()),
        None => word(out, "-"),
    }
}

/// A text on one line of ASCII.
pub fn show(out: &mut String, text: &str) -> Printed {
    for c in text.chars() {
        match c {
            '\n' => out.push_str("\\n")?,
            '\\' => out.push_str("\\\\")?,
            ' '..='~' => out.push(c)?,
            _ => write!(out, "\\u{{{:x}}}", u32::from(c))?,
        }
    }
    Ok(())
}
