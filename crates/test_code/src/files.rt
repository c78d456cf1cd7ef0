//! What is answered of code files.

use crate::listings::all_rise;
use crate::notation::{NoRow, bytes_of, number, push_word};
use pt_code::{Code, CodeBlock, read, write};
use pt_listing::listing;
use std::alloc::Global;

/// The last file that a table tells.
#[derive(Drop)]
pub struct Files {
    last: Vec<u8>,
}

impl Files {
    pub fn new(alloc: Global) -> Files {
        Files {
            last: Vec::new(alloc),
        }
    }

    /// Takes a file, and writes what is read of it, with all its parts.
    pub fn take(&mut self, line: &mut String, alloc: Global, words: &str) -> Result<(), NoRow> {
        self.last = bytes_of(alloc, words)?;
        if let Some(code) = tell(line, alloc, self.last.as_slice())? {
            parts(line, alloc, &code)?;
        }
        Ok(())
    }

    /// Writes what is read of the file with other bytes: `AT=HEX`, or `+HEX` for bytes behind it.
    pub fn changed(&self, line: &mut String, alloc: Global, words: &str) -> Result<(), NoRow> {
        let mut bytes = self.last.clone()?;
        for word in words.split_whitespace() {
            if let Some(more) = word.strip_prefix("+") {
                push_word(&mut bytes, alloc, more)?;
            } else {
                let (at, digits) = word.split_once("=").ok_or(NoRow)?;
                let place = bytes.get_mut(number(at)?).ok_or(NoRow)?;
                *place = u8::from_str_radix(digits, 16).map_err(|_| NoRow)?;
            }
        }
        tell(line, alloc, bytes.as_slice())?;
        Ok(())
    }

    /// Writes the listing of the file's code.
    pub fn listing(&self, line: &mut String, alloc: Global) -> Result<(), NoRow> {
        let Ok(code) = read(alloc, self.last.as_slice()) else {
            return Err(NoRow);
        };
        if all_rise(code.blocks.as_slice()) {
            let text = listing(alloc, &code)?;
            line.push_str(text.as_str())?;
            Ok(())
        } else {
            Err(NoRow)
        }
    }

    /// Writes what is read of each shorter front of the file.
    pub fn cut(&self, line: &mut String, alloc: Global) -> Result<(), NoRow> {
        let bytes = self.last.as_slice();
        for len in 0..bytes.len() {
            line.push_str(if len == 0 { "" } else { "\n" })?;
            tell(line, alloc, &bytes[..len])?;
        }
        Ok(())
    }
}

/// Writes whether the bytes are read and written back, or why they are refused, and gives what is
/// read.
fn tell(line: &mut String, alloc: Global, bytes: &[u8]) -> Result<Option<Code>, NoRow> {
    match read(alloc, bytes) {
        Ok(code) => {
            let written = write(alloc, &code)?;
            let is_same = written.as_slice() == bytes;
            line.push_str(if is_same {
                "read and written back"
            } else {
                "read"
            })?;
            Ok(Some(code))
        }
        Err(error) => {
            write!(line, "{error}")?;
            Ok(None)
        }
    }
}

/// Writes the parts of a code, each on a line.
fn parts(line: &mut String, alloc: Global, code: &Code) -> Result<(), NoRow> {
    let last = code.texts.as_slice().last();
    let last = last.map_or("", |text| text.as_str());
    write!(line, "\n{} texts, the last {last:?}", code.texts.len())?;
    write!(line, "\nconstants {:?}", code.constants.as_slice())?;
    for list in code.lists.as_slice() {
        write!(line, "\nlist {:?}", list.as_slice())?;
    }
    for block in code.blocks.as_slice() {
        tell_block(line, alloc, block)?;
    }
    Ok(())
}

fn tell_block(line: &mut String, alloc: Global, block: &CodeBlock) -> Result<(), NoRow> {
    write!(line, "\nblock {:?} {:?}", block.name, block.kind)?;
    write!(line, " {:?}, {:?}", block.first_line, block.rest)?;
    write!(line, ", parameters {}", block.parameters)?;
    write!(line, ", keyword only {}", block.keyword_only)?;
    write!(line, "\n  locals {:?}", block.locals.as_slice())?;
    write!(line, "\n  cells {:?}", block.cells.as_slice())?;
    write!(line, "\n  free {:?}", block.free.as_slice())?;
    let instructions = hex::encode(alloc, block.instructions.as_slice())?;
    write!(line, "\n  instructions {instructions}")?;
    write!(line, "\n  marks {:?}", block.marks.as_slice())?;
    write!(line, "\n  handlers {:?}", block.handlers.as_slice())?;
    write!(line, "\n  starts {:?}", block.starts.as_slice())?;
    Ok(())
}
