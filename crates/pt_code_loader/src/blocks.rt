//! What the machine knows of each block.
ghost use Rattle.std.specs.Prelude.{◌≡◌, ◌+◌, ◌<◌, ◌^◌, IfOk, OnOk, length};
ghost use Rattle.std.specs.List.{AllByRecursion};
ghost use Rattle.pt_code.specs.declared.CodeBlock.{CodeBlock};
ghost use Rattle.pt_code_loader.specs.Loaded.{AreLoaded, IsLoaded, captures_of, classes_of, is_class, iterates};

use crate::depths::depths;
use crate::names::text_in;
use pt_base::{Memory, Seq};
use pt_code::{BlockKind, Code, CodeBlock};
use pt_code_tables::BlockCode;
use pt_places::{Handlers, Places};
use std::alloc::Global;

fn iterates(kind: BlockKind) -> bool
    ensures { result ≡ iterates kind }
{
    match kind {
        BlockKind::GeneratorExpression => true,
        _ => false,
    }
}

/// What the machine knows of a block of a code.
pub fn block_of(alloc: Global, code: &Code, block: &CodeBlock) -> Result<BlockCode, Memory>
    ensures { IfOk result (λ loaded. IsLoaded code.now block.now loaded) }
{
    let name = text_in(alloc, &code.texts, block.name.0)?;
    let depths = depths(alloc, code, block)?;
    let places = Places::make(alloc, block)?;
    let handlers = Handlers::make(alloc, block)?;
    Ok(BlockCode {
        name,
        first_line: block.first_line,
        places,
        handlers,
        depths,
        iterates: iterates(block.kind),
    })
}

/// The same of blocks in their order.
pub fn blocks_of(alloc: Global, code: &Code, blocks: &[CodeBlock]) -> Result<Seq<BlockCode>, Memory>
    ensures { IfOk result (λ loaded. AreLoaded code.now blocks.now loaded) }
{
    let mut loaded = Seq::new(alloc);
    for block in blocks {
        let one = block_of(alloc, code, block)?;
        loaded.push(one)?;
    }
    Ok(loaded)
}

fn is_class(kind: BlockKind) -> bool
    ensures { result ≡ is_class kind }
{
    match kind {
        BlockKind::Class => true,
        _ => false,
    }
}

/// Which blocks are bodies of classes.
pub fn classes_of(alloc: Global, blocks: &[CodeBlock]) -> Result<Seq<bool>, Memory>
    ensures { IfOk result (λ classes. classes ≡ classes_of blocks.now) }
{
    let mut classes = Seq::new(alloc);
    for block in blocks {
        classes.push(is_class(block.kind))?;
    }
    Ok(classes)
}

/// That the cells of a block have room for their numbers, with its free names.
fn has_room(block: &CodeBlock) -> Result<(), Memory>
    ensures { OnOk result (length block.now.cells + length block.now.free < 2 ^ 32) }
{
    let count = block
        .cells
        .len()
        .checked_add(block.free.len())
        .ok_or(Memory)?;
    u32::try_from(count).map_err(|_| Memory)?;
    Ok(())
}

/// That the cells of each block have room for their numbers.
pub fn have_room(blocks: &[CodeBlock]) -> Result<(), Memory>
    ensures { OnOk result (AllByRecursion (λ (b : CodeBlock). length b.cells + length b.free < 2 ^ 32) blocks.now) }
{
    for block in blocks {
        has_room(block)?;
    }
    Ok(())
}

fn captures(block: &CodeBlock) -> Result<u32, Memory>
    ensures { IfOk result (λ count. count ≡ length block.now.free) }
{
    u32::try_from(block.free.len()).map_err(|_| Memory)
}

/// How many cells a function of each block takes along.
pub fn captures_of(alloc: Global, blocks: &[CodeBlock]) -> Result<Seq<u32>, Memory>
    ensures { IfOk result (λ counts. counts ≡ captures_of blocks.now) }
{
    let mut counts = Seq::new(alloc);
    for block in blocks {
        let count = captures(block)?;
        counts.push(count)?;
    }
    Ok(counts)
}
