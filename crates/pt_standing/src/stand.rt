//! Whether an instruction may stand in a block of a kind.
ghost use Rattle.std.specs.Prelude.{◌≡◌, Option, option_map, length, IfOk};
ghost use Rattle.sem_fits.specs.fits.Block.{links_of};
ghost use Rattle.sem_fits.specs.fits.Standing.{has_names, is_class, is_function, is_generator_expression, may_stand, may_yield};
ghost use Rattle.pt_standing.specs.Names.{TellsDefaults, makes_function};

use crate::defaults::Defaults;
use pt_base::{BlockId, Memory};
use pt_code::{BlockKind, Code};
use pt_instr::{Instr, ListNo};

fn may_yield(kind: BlockKind) -> bool
    ensures { result ≡ may_yield kind }
{
    matches!(kind, BlockKind::Generator | BlockKind::GeneratorExpression)
}

fn has_names(kind: BlockKind) -> bool
    ensures { result ≡ has_names kind }
{
    matches!(kind, BlockKind::Module | BlockKind::Class)
}

fn is_function(kind: Option<BlockKind>) -> bool
    ensures { result ≡ is_function kind }
{
    matches!(kind, Some(BlockKind::Function | BlockKind::Generator))
}

fn is_class(kind: Option<BlockKind>) -> bool
    ensures { result ≡ is_class kind }
{
    matches!(kind, Some(BlockKind::Class))
}

fn is_generator_expression(kind: Option<BlockKind>) -> bool
    ensures { result ≡ is_generator_expression kind }
{
    matches!(kind, Some(BlockKind::GeneratorExpression))
}

/// The kind of the block with a number.
fn kind_of(code: &Code, block: BlockId) -> Option<BlockKind>
    ensures { result ≡ (links_of code.now).kind block.0 }
{
    match code.blocks.get(block.0 as usize) {
        None => None,
        Some(block) => Some(block.kind),
    }
}

/// How many texts a list has.
fn count_of(code: &Code, list: ListNo) -> usize
    ensures { result ≡ length ((links_of code.now).texts list.0) }
{
    match code.lists.get(list.0 as usize) {
        None => 0,
        Some(list) => list.len(),
    }
}

/// Whether an instruction may make a function of a block, with defaults for so many parameters, whose
/// names a list has.
fn makes_function(
    defaults: &Defaults,
    code: &Code,
    block: BlockId,
    count: u32,
    list: ListNo,
) -> Result<bool, Memory>
    ensures { IfOk result (λ told. TellsDefaults code.now defaults.now
        → told ≡ makes_function code.now block.0 count list.0) }
{
    if !is_function(kind_of(code, block)) || count_of(code, list) != count as usize {
        return Ok(false);
    }
    match defaults.find(block.0 as usize, list.0 as usize) {
        None => Err(Memory),
        Some(told) => Ok(told),
    }
}

/// Whether an instruction may stand in a block of a kind.
///
/// # Errors
///
/// `Memory` where nothing is told of what it names, as of no instruction of the code.
pub fn may_stand(
    defaults: &Defaults,
    code: &Code,
    kind: BlockKind,
    instr: &Instr,
) -> Result<bool, Memory>
    ensures { IfOk result (λ told. TellsDefaults code.now defaults.now
        → told ≡ may_stand kind (links_of code.now) instr.now) }
{
    match *instr {
        Instr::Yield | Instr::Delegate => Ok(may_yield(kind)),
        Instr::Name(_) | Instr::SetName(_) | Instr::DelName(_) => Ok(has_names(kind)),
        Instr::CallKw(count, list) => Ok(count_of(code, list) <= count as usize),
        Instr::CallSpread(count, list) => Ok(count_of(code, list) == count as usize),
        Instr::MakeFunction(block, count, list) => makes_function(
            defaults, code, block, count, list,
        ),
        Instr::MakeClass(block) => Ok(is_class(kind_of(code, block))),
        Instr::MakeGenerator(block) => Ok(is_generator_expression(kind_of(code, block))),
        _ => Ok(true),
    }
}
