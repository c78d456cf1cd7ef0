//! Whether a block is supported yet.

ghost use Rattle.std.specs.Prelude.{◌≡◌, ◌&&◌, IfOk, Decides};
ghost use Rattle.std.specs.List.{IsDistinct};
ghost use Rattle.std.specs.Str.{bytes_eq};
ghost use Rattle.pt_supported_code.specs.Built.{IsBuiltBlock, is_plain_kind, named_by};
ghost use Rattle.pt_supported_code.specs.Numbers.{AreThere, IsReadBlock};
ghost use Rattle.pt_standing.specs.Texts.{AreIds};

use crate::defaults::all_take;
use crate::names::{add_ids, are_different};
use pt_base::{Memory, Seq};
use pt_code::{BlockKind, Code, CodeBlock};
use pt_instr::TextNo;
use std::alloc::Global;

/// Whether a block is not of a generator expression.
fn is_plain_kind(kind: BlockKind) -> bool
    ensures { result ≡ is_plain_kind kind }
{
    match kind {
        BlockKind::Module | BlockKind::Function | BlockKind::Class => true,
        _ => false,
    }
}

/// Whether no two names of a list are the same text.
fn have_different(alloc: Global, ids: &[usize], names: &[TextNo]) -> Result<bool, Memory>
    ensures { IfOk result (λ different. (c : Code) → AreIds c.texts ids.now
        → AreThere c names.now
        → Decides different (IsDistinct bytes_eq (named_by c.texts names.now))) }
{
    let mut numbers = Seq::new(alloc);
    add_ids(ids, names, &mut numbers)?;
    let different = are_different(alloc, numbers.as_slice())?;
    Ok(different)
}

fn all_hold(kind: bool, locals: bool, cells: bool, free: bool, takes: bool) -> bool
    ensures { result ≡ (kind && (locals && (cells && (free && takes)))) }
{
    kind && locals && cells && free && takes
}

/// Whether a block of a code is supported, by the numbers of the code's texts.
pub fn is_built(
    alloc: Global,
    code: &Code,
    ids: &[usize],
    block: &CodeBlock,
) -> Result<bool, Memory>
    requires texts { AreIds code.now.texts ids.now }
    requires read { IsReadBlock code.now block.now }
    ensures { IfOk result (λ built. Decides built (IsBuiltBlock code.now block.now)) }
{
    let kind = is_plain_kind(block.kind);
    let locals = have_different(alloc, ids, block.locals.as_slice())?;
    let cells = have_different(alloc, ids, block.cells.as_slice())?;
    let free = have_different(alloc, ids, block.free.as_slice())?;
    let takes = all_take(alloc, code.lists.as_slice(), block)?;
    Ok(all_hold(kind, locals, cells, free, takes))
}
