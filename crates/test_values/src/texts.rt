//! A row of a text is a place and the text. What is answered is the length in characters, and the
//! code of the character at the place.

use crate::no_row::NoRow;
use pt_base::Text;
use pt_heap::Str;
use std::alloc::Global;

pub fn answers(line: &mut String, alloc: Global, row: &str) -> Result<(), NoRow> {
    let Some((place, text)) = row.split_once(" ") else {
        return Err(NoRow);
    };
    let Ok(place) = place.parse::<usize>() else {
        return Err(NoRow);
    };
    let text = Str::new(Text::from_str(alloc, text)?);
    let length = format!(in alloc; "{}", text.len())?;
    line.push_str(length.as_str())?;
    line.push_str(" ")?;
    match text.char_at(place) {
        Some(c) => {
            let code = format!(in alloc; "{}", c as u32)?;
            line.push_str(code.as_str())?;
        }
        None => line.push_str("-")?,
    }
    Ok(())
}
