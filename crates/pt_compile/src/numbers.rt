//! Whether the counts and numbers of a code have room in its file.

ghost use Rattle.std.specs.Prelude.{FitsSigned, OnOk};
ghost use Rattle.std.specs.Int.{w128};
ghost use Rattle.pt_code.specs.File.{AreListed, IsHandler, IsMark, IsNumber, IsStart, IsText};
ghost use Rattle.law_files.specs.code_files.Numbers.{BlockFits, IntegerFits, IsCounted, NumbersFit};

use pt_base::{Memory, Seq, Text};
use pt_code::{Code, CodeBlock, Const, Start};
use pt_ranges::{ActMark, Handler};

/// The numbers of a code have room by their types; a list that can't be counted is want of memory.
pub fn check_numbers(code: &Code) -> Result<(), Memory>
    ensures { OnOk result (NumbersFit code.now) }
{
    check_texts(code.texts.as_slice())?;
    check_constants(code.constants.as_slice())?;
    check_lists(code.lists.as_slice())?;
    check_blocks(code.blocks.as_slice())
}

fn check_count(count: usize) -> Result<(), Memory>
    ensures { OnOk result (IsNumber count) }
{
    match u32::try_from(count) {
        Ok(_) => Ok(()),
        Err(_) => Err(Memory),
    }
}

fn check_texts(texts: &[Text]) -> Result<(), Memory>
    ensures { OnOk result (AreListed IsText texts.now) }
{
    check_count(texts.len())?;
    for text in texts {
        check_text(text.as_str())?;
    }
    Ok(())
}

fn check_text(text: &str) -> Result<(), Memory>
    ensures { OnOk result (IsText text.now) }
{
    check_count(text.len())
}

fn check_constants(constants: &[Const]) -> Result<(), Memory>
    ensures { OnOk result (AreListed IntegerFits constants.now) }
{
    check_count(constants.len())?;
    for constant in constants {
        read_constant(constant);
    }
    Ok(())
}

fn read_constant(constant: &Const)
    ensures { IntegerFits constant.now }
{
    match constant {
        Const::Int(n) => read_integer(*n),
        Const::None | Const::False | Const::True | Const::Text(_) | Const::Ellipsis => (),
    }
}

fn read_integer(n: i128)
    ensures { FitsSigned w128 n }
{
    let _ = n;
}

fn read_number(number: u32)
    ensures { IsNumber number }
{
    let _ = number;
}

fn check_lists(lists: &[Seq<u32>]) -> Result<(), Memory>
    ensures { OnOk result (AreListed IsCounted lists.now) }
{
    check_count(lists.len())?;
    for list in lists {
        check_count(list.len())?;
    }
    Ok(())
}

fn check_blocks(blocks: &[CodeBlock]) -> Result<(), Memory>
    ensures { OnOk result (AreListed BlockFits blocks.now) }
{
    check_count(blocks.len())?;
    for block in blocks {
        check_block(block)?;
    }
    Ok(())
}

fn check_block(block: &CodeBlock) -> Result<(), Memory>
    ensures { OnOk result (BlockFits block.now) }
{
    read_number(block.first_line.0);
    read_number(block.parameters);
    read_number(block.keyword_only);
    check_count(block.locals.len())?;
    check_count(block.cells.len())?;
    check_count(block.free.len())?;
    check_count(block.instructions.len())?;
    check_marks(block.marks.as_slice())?;
    check_handlers(block.handlers.as_slice())?;
    check_starts(block.starts.as_slice())
}

fn check_marks(marks: &[ActMark]) -> Result<(), Memory>
    ensures { OnOk result (AreListed IsMark marks.now) }
{
    check_count(marks.len())?;
    for mark in marks {
        read_mark(mark);
    }
    Ok(())
}

fn read_mark(mark: &ActMark)
    ensures { IsMark mark.now }
{
    read_number(mark.pc.0);
    read_number(mark.act.0);
    read_number(mark.line.0);
}

fn check_handlers(handlers: &[Handler]) -> Result<(), Memory>
    ensures { OnOk result (AreListed IsHandler handlers.now) }
{
    check_count(handlers.len())?;
    for handler in handlers {
        read_handler(handler);
    }
    Ok(())
}

fn read_handler(handler: &Handler)
    ensures { IsHandler handler.now }
{
    read_number(handler.from.0);
    read_number(handler.to.0);
    read_number(handler.target.0);
    read_number(handler.depth);
}

fn check_starts(starts: &[Start]) -> Result<(), Memory>
    ensures { OnOk result (AreListed IsStart starts.now) }
{
    check_count(starts.len())?;
    for start in starts {
        read_start(start);
    }
    Ok(())
}

fn read_start(start: &Start)
    ensures { IsStart start.now }
{
    read_number(start.pc.0);
    read_number(start.line.0);
}
