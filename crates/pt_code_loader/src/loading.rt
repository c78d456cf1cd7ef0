ghost use Rattle.std.specs.Prelude.{◌≡◌, ◌∷◌, ◌<◌, IfOk, OnOk, length};
ghost use Rattle.pt_code_tables.specs.pt_machine_state.pt_code_facts.Facts.{blocks_of};
ghost use Rattle.pt_code_loader.specs.Loaded.{AreLoaded, IsLoadedProgram, IsPoolOf};
ghost use Rattle.law_files.specs.operands_fit.Laws.{CellsFit};

use crate::blocks::{block_of, blocks_of, captures_of, classes_of, have_room};
use crate::constants::constants_of;
use crate::names::{builtins_of, lists_of};
use pt_base::{Dup, Memory, Seq, Text};
use pt_code::Code;
use pt_code_facts::{Blocks as Facts, SideFacts};
use pt_code_tables::{Blocks, CodeTables, PoolTables, SideBlocks};
use pt_heap::{Seed, Value};
use std::alloc::Global;

/// A code that is ready to run.
#[derive(Drop)]
pub struct Loaded {
    pub tables: CodeTables,
    /// The texts of constants, each once, for which each run starts with an object.
    pub texts: Seq<Text>,
}

/// The blocks of a code. The module is the first.
#[tactic(auto, using(crate::proofs::BlockLemmas::first_and_others))]
fn machine_blocks(alloc: Global, code: &Code) -> Result<SideBlocks, Memory>
    requires { 0 < length code.now.blocks }
    ensures { IfOk result (λ b. AreLoaded code.now code.now.blocks (b.of_module ∷ b.others)) }
{
    let blocks = code.blocks.as_slice();
    let of_module = block_of(alloc, code, &blocks[0])?;
    let others = blocks_of(alloc, code, &blocks[1..])?;
    Ok(SideBlocks { of_module, others })
}

/// What the code tells of its blocks.
#[tactic(auto, using(crate::proofs::BlockLemmas::first_facts_and_others))]
fn facts_of(alloc: Global, code: &Code) -> Result<SideFacts, Memory>
    requires { 0 < length code.now.blocks }
    ensures { IfOk result
        (λ f. f.of_module ∷ f.others ≡ blocks_of code.now.texts code.now.blocks) }
{
    let blocks = code.blocks.as_slice();
    let of_module = pt_code_tables::facts_of(alloc, &code.texts, &blocks[0])?;
    let others = pt_code_tables::blocks_of(alloc, &code.texts, &blocks[1..])?;
    Ok(SideFacts { of_module, others })
}

/// What the numbers in operands of a code name, whose blocks are hidden or not, over these values of
/// its constants.
fn pool_of(
    alloc: Global,
    code: &Code,
    hidden: bool,
    constants: Seq<Value>,
) -> Result<PoolTables, Memory>
    ensures { IfOk result (λ pool. IsPoolOf code.now hidden constants pool) }
{
    Ok(PoolTables {
        constants,
        texts: code.texts.dup(alloc)?,
        builtins: builtins_of(alloc, hidden, code.texts.as_slice())?,
        lists: lists_of(alloc, &code.texts, code.lists.as_slice())?,
        captures: captures_of(alloc, code.blocks.as_slice())?,
        classes: classes_of(alloc, code.blocks.as_slice())?,
    })
}

/// Makes a code ready to run over a prelude, in time about linear in both (Library Reference,
/// "inspect": code objects). The seed is that of the hashes by which the texts of constants are
/// found. A code has a block at least, its module.
///
/// # Errors
///
/// `Memory` for want of it, where a number has no room in four bytes, as that of a cell of a block with
/// 2^32 of them, and where the sizes of a block disagree or a place of it gets more than 16,777,216
/// slots. So what is loaded is shallow enough to fit.
pub fn load(alloc: Global, seed: Seed, prelude: &Code, code: &Code) -> Result<Loaded, Memory>
    requires prelude { 0 < length prelude.now.blocks }
    requires code { 0 < length code.now.blocks }
    ensures tables { IfOk result (λ loaded. IsLoadedProgram prelude.now code.now loaded) }
    ensures room { OnOk result (CellsFit prelude.now × CellsFit code.now) }
{
    have_room(prelude.blocks.as_slice())?;
    have_room(code.blocks.as_slice())?;
    let constants = constants_of(alloc, seed, prelude, code)?;
    let tables = CodeTables {
        blocks: Blocks {
            script: machine_blocks(alloc, code)?,
            prelude: machine_blocks(alloc, prelude)?,
        },
        facts: Facts {
            script: facts_of(alloc, code)?,
            prelude: facts_of(alloc, prelude)?,
        },
        script: pool_of(alloc, code, false, constants.of_code)?,
        prelude: pool_of(alloc, prelude, true, constants.of_prelude)?,
    };
    Ok(Loaded {
        tables,
        texts: constants.texts,
    })
}
