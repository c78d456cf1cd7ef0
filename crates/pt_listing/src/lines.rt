ghost use Rattle.std.specs.Prelude.{◌≡◌, ◌<◌, ◌≤◌, ◌^◌, ◌++◌, length, string_bytes, OnOk};
ghost use Rattle.std.specs.List.{flat_map};
ghost use Rattle.pt_ranges.specs.Marks.{Rises};
ghost use Rattle.pt_instr.specs.Encoding.{encoding, listed};
ghost use Rattle.pt_listing.specs.Listing.{act_line, act_lines, behind_blank, block_line, instr_line, instr_lines, mark_at};

use pt_base::{Memory, Pc};
use pt_instr::{Instr, Operands, name, operand_numbers};
use pt_ranges::{ActMark, LineTable};

/// Operands, each behind a blank.
fn push_operands(text: &mut String, operands: Operands) -> Result<(), Memory>
    ensures { OnOk result
        (string_bytes text.new ≡ string_bytes text.old ++ flat_map behind_blank (listed operands)) }
{
    match operands {
        Operands::None => {}
        Operands::One(x) => write!(text, " {x}")?,
        Operands::Two(x, y) => write!(text, " {x} {y}")?,
        Operands::Three(x, y, z) => write!(text, " {x} {y} {z}")?,
    }
    Ok(())
}

/// The line of an instruction.
fn push_instr(text: &mut String, pc: usize, instr: &Instr) -> Result<(), Memory>
    ensures { OnOk result
        (string_bytes text.new ≡ string_bytes text.old ++ instr_line pc instr.now) }
{
    let spelled = name(instr);
    write!(text, "{pc} {spelled}")?;
    push_operands(text, operand_numbers(instr))?;
    text.push_str("\n")?;
    Ok(())
}

/// The line of an act.
fn push_act(text: &mut String, mark: ActMark) -> Result<(), Memory>
    ensures { OnOk result (string_bytes text.new ≡ string_bytes text.old ++ act_line mark) }
{
    let act = mark.act.0;
    let line = mark.line.0;
    write!(text, "act {act} line {line}\n")?;
    Ok(())
}

/// The act that begins at a place.
fn act_at(table: &LineTable, pc: usize) -> Option<ActMark>
    requires { pc < 2 ^ 32 }
    ensures { result ≡ mark_at table.now pc }
{
    let pc = Pc(pc as u32);
    match table.act_at(pc) {
        Some(mark) => { if mark.pc == pc { Some(mark) } else { None } }
        None => None,
    }
}

/// What stands at a place: the line of the act that begins there, and that of the instruction.
fn push_place(text: &mut String, table: &LineTable, pc: usize, instr: &Instr) -> Result<(), Memory>
    requires { pc < 2 ^ 32 }
    ensures { OnOk result
        (string_bytes text.new
        ≡ string_bytes text.old ++ act_lines (mark_at table.now pc) ++ instr_line pc instr.now) }
{
    if let Some(mark) = act_at(table, pc) {
        push_act(text, mark)?;
    }
    push_instr(text, pc, instr)
}

/// How many bytes an instruction has.
fn width(instr: &Instr) -> usize
    ensures { result ≡ length (encoding instr.now) }
{
    1 + 4 * operand_numbers(instr).len()
}

/// The lines of instructions, of which the first stands at 0.
pub fn push_instrs(text: &mut String, table: &LineTable, instrs: &[Instr]) -> Result<(), Memory>
    requires { length (flat_map encoding instrs.now) < 2 ^ 32 }
    ensures { OnOk result
        (string_bytes text.new
        ≡ string_bytes text.old ++ instr_lines table.now 0 instrs.now) }
{
    let mut pc = 0;
    for instr in instrs {
        push_place(text, table, pc, instr)?;
        pc += width(instr);
    }
    Ok(())
}

/// The line of a block.
pub fn push_block_line(text: &mut String, number: usize, name: &str) -> Result<(), Memory>
    ensures { OnOk result
        (string_bytes text.new ≡ string_bytes text.old ++ block_line number name.now) }
{
    write!(text, "block {number} {name}\n")?;
    Ok(())
}
