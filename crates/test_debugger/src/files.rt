//! Files of commands.
use crate::answers::write_line;
use crate::no_row::NoRow;
use pt_command_files::command_lines;
use std::alloc::Global;
use test_notation::text_of;

/// Writes each line of a file of commands, and which command it is. A row is the file.
pub fn write(out: &mut Vec<u8>, alloc: Global, row: &str) -> Result<(), NoRow> {
    let file = text_of(alloc, row)?;
    let lines = command_lines(alloc, file.as_slice())?;
    for line in lines.as_slice() {
        write_line(out, alloc, line.as_slice())?;
    }
    Ok(())
}
