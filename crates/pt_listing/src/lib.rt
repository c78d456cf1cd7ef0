//! The listing of code, for people: what stands where, and which acts begin there.
#![tactic(auto)]

mod instructions;
mod lines;

ghost use Rattle.std.specs.Prelude.{◌≡◌, ◌++◌, string_bytes, List, ℕ, IfOk, OnOk};
ghost use Rattle.std.specs.List.{AllByRecursion};
ghost use Rattle.pt_ranges.specs.Marks.{Rises};
ghost use Rattle.pt_code.specs.File.{HasFile};
ghost use Rattle.pt_listing.specs.Listing.{block_lines, CanBeListed, IsListing, IsSpelled};

use instructions::instructions;
use lines::{push_block_line, push_instrs};
use pt_base::{Memory, Text};
use pt_code::{Code, CodeBlock};
use pt_ranges::LineTable;
use std::alloc::Global;

/// The lines of a block with this number.
fn push_block(
    alloc: Global,
    text: &mut String,
    texts: &[Text],
    number: usize,
    block: &CodeBlock,
) -> Result<(), Memory>
    requires { CanBeListed texts.now block.now }
    ensures { OnOk result
        ((is : _) → IsSpelled block.now is
        → string_bytes text.new ≡ string_bytes text.old ++ block_lines texts.now number block.now is) }
{
    let table = LineTable::build(alloc, block.marks.as_slice())?;
    let instrs = instructions(alloc, block.instructions.as_slice())?;
    push_block_line(text, number, texts[block.name.0 as usize].as_str())?;
    push_instrs(text, &table, instrs.as_slice())
}

/// The listing of code: for each block `block N NAME`, then for each instruction `PC NAME` and its
/// operands, and before an instruction at which an act begins `act A line L`. It takes code that has
/// a file and whose marks rise (Library Reference, "dis").
pub fn listing(alloc: Global, code: &Code) -> Result<String, Memory>
    requires file { HasFile code.now }
    requires rise { AllByRecursion (λ b. Rises b.marks) code.now.blocks }
    ensures { IfOk result (λ t. IsListing code.now (string_bytes t)) }
{
    let mut text = String::new(alloc);
    let texts = code.texts.as_slice();
    let mut number = 0;
    for block in code.blocks.as_slice() {
        push_block(alloc, &mut text, texts, number, block)?;
        number += 1;
    }
    Ok(text)
}
