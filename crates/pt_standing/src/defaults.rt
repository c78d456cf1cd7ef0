//! Whether the lists that instructions name are those of different parameters.
ghost use Rattle.std.specs.Prelude.{◌≡◌, ◌+◌, take, List, IfOk, OnOk};
ghost use Rattle.pt_tree.specs.Syntax.{Name};
ghost use Rattle.sem_fits.specs.fits.Block.{links_of};
ghost use Rattle.pt_standing.specs.Names.{AreDistinctLists, TellsDefaults, are_among};
ghost use Rattle.pt_standing.specs.Texts.{AreIds, HasMarks};

use crate::ids::ids_of;
use crate::marks::{are_distinct, are_marked, mark_all};
use pt_base::Memory;
use pt_budget::Budget;
use pt_code::{Code, CodeBlock};
use pt_instr::{Instr, TextNo, decode};
use std::alloc::Global;
use std::collections::BTreeMap;

/// How many names of lists are looked at for pairs of a block and a list: a bound on time. In the
/// code of a script each `def` and `lambda` makes one pair, of its own block and the names of its
/// defaults, so there are no more of them than bytes of the script.
const MOST_NAMES: u64 = 0x0200_0000;

/// Of the blocks and lists that instructions of a code name together, whether the texts of the list
/// are different and each is that of a parameter of the block.
#[derive(Debug, Drop)]
pub struct Defaults {
    pub told: BTreeMap<(usize, usize), bool>,
}

impl Defaults {
    ghost use Rattle.std.specs.Prelude.{◌≡◌, IfOk, OnOk};
    ghost use Rattle.pt_standing.specs.Names.{TellsDefaults, TellsMore, told_of};

    /// Goes through the instructions of a code once. For a code of n bytes it takes memory O(n) and
    /// time O(n log n), and a step more for each name that is looked at: for each pair of a block
    /// and a list the names up to the first that isn't a parameter's, at most 2^25 in all.
    ///
    /// # Errors
    ///
    /// `Memory` for want of it, where these names are more than 2^25, as where instructions name
    /// each of some 1,000 blocks with each of as many lists, and where the code names a text that
    /// it hasn't, as none of a file does.
    pub fn make(alloc: Global, code: &Code) -> Result<Defaults, Memory>
        ensures { IfOk result (λ d. TellsDefaults code.now d) }
    {
        let ids = ids_of(alloc, code.texts.as_slice())?;
        let distinct = distinct_lists(alloc, code, &ids)?;
        let asked = asked_lists(alloc, code)?;
        told_defaults(alloc, code, &ids, &distinct, &asked)
    }

    /// What is told of a block and a list.
    pub fn find(&self, block: usize, list: usize) -> Option<bool>
        ensures { result ≡ told_of self.now block list }
    {
        self.told.get(&(block, list)).copied()
    }

    fn tell(&mut self, block: usize, list: usize, told: bool) -> Result<(), Memory>
        ensures { OnOk result (TellsMore self.old self.new block list told) }
    {
        self.told.insert((block, list), told)?;
        Ok(())
    }
}

/// Of each list whether its texts are different.
fn distinct_lists(alloc: Global, code: &Code, ids: &[usize]) -> Result<Vec<bool>, Memory>
    ensures { IfOk result (λ told. AreIds code.now.texts ids.now
        → AreDistinctLists code.now.texts code.now.lists told.items) }
{
    let mut table = vec![in alloc; 0; ids.len()]?;
    let marks = table.as_mut_slice();
    let mut told = Vec::new(alloc);
    let lists = code.lists.as_slice();
    for number in 0..lists.len() {
        let list = lists[number].as_slice();
        told.push(are_distinct(ids, marks, list, number + 1)?)?;
    }
    Ok(told)
}

/// Puts a list behind those that are known for the block with which an instruction names it.
fn ask(asked: &mut [Vec<u32>], instr: &Instr) -> Result<(), Memory> {
    if let Instr::MakeFunction(block, _, list) = *instr
        && let Some(lists) = asked.get_mut(block.0 as usize)
    {
        lists.push(list.0)?;
    }
    Ok(())
}

/// The same with all instructions of a block.
fn ask_block(asked: &mut [Vec<u32>], bytes: &[u8]) -> Result<(), Memory> {
    let mut at = 0;
    while at < bytes.len() {
        let Some((instr, next)) = decode(bytes, at) else {
            return Ok(());
        };
        ask(asked, &instr)?;
        at = next;
    }
    Ok(())
}

/// For each block the lists that instructions name together with it.
fn asked_lists(alloc: Global, code: &Code) -> Result<Vec<Vec<u32>>, Memory> {
    let mut asked = Vec::new(alloc);
    for _ in 0..code.blocks.len() {
        asked.push(Vec::new(alloc))?;
    }
    for block in code.blocks.as_slice() {
        ask_block(asked.as_mut_slice(), block.instructions.as_slice())?;
    }
    Ok(asked)
}

/// The names of the parameters that are plain or keyword-only.
fn parameters(block: &CodeBlock) -> &[TextNo]
    ensures { result.now ≡ take (block.now.parameters + block.now.keyword_only) block.now.locals }
{
    let locals = block.locals.as_slice();
    let count = block.parameters as usize + block.keyword_only as usize;
    &locals[..count.min(locals.len())]
}

/// Whether the texts of a list are different and all have a mark.
fn is_among_marked(
    code: &Code,
    ids: &[usize],
    marks: &[usize],
    distinct: &[bool],
    list: usize,
    by: usize,
    budget: &mut Budget,
) -> Result<bool, Memory>
    ensures { IfOk result (λ told. (names : List Name)
        → AreDistinctLists code.now.texts code.now.lists distinct.now
        → HasMarks code.now.texts ids.now marks.now by names
        → told ≡ are_among names ((links_of code.now).texts list)) }
{
    match (code.lists.get(list), distinct.get(list)) {
        (Some(texts), Some(true)) => are_marked(ids, marks, texts.as_slice(), by, budget),
        (Some(_), Some(false)) => Ok(false),
        _ => Err(Memory),
    }
}

/// Tells of a block whose parameters have a mark, with each of these lists.
fn tell_lists(
    defaults: &mut Defaults,
    code: &Code,
    ids: &[usize],
    marks: &[usize],
    distinct: &[bool],
    lists: &[u32],
    block: usize,
    by: usize,
    budget: &mut Budget,
) -> Result<(), Memory>
    ensures { OnOk result (AreDistinctLists code.now.texts code.now.lists distinct.now
        → HasMarks code.now.texts ids.now marks.now by ((links_of code.now).parameters block)
        → TellsDefaults code.now defaults.old → TellsDefaults code.now defaults.new) }
{
    for list in lists {
        let list = *list as usize;
        if defaults.find(block, list).is_none() {
            let told = is_among_marked(code, ids, marks, distinct, list, by, budget)?;
            defaults.tell(block, list, told)?;
        }
    }
    Ok(())
}

/// What is told of blocks and the lists that are named with them.
fn told_defaults(
    alloc: Global,
    code: &Code,
    ids: &[usize],
    distinct: &[bool],
    asked: &[Vec<u32>],
) -> Result<Defaults, Memory>
    ensures { IfOk result (λ d. AreIds code.now.texts ids.now
        → AreDistinctLists code.now.texts code.now.lists distinct.now → TellsDefaults code.now d) }
{
    let mut table = vec![in alloc; 0; ids.len()]?;
    let marks = table.as_mut_slice();
    let mut defaults = Defaults {
        told: BTreeMap::new(alloc),
    };
    let mut budget = Budget::new(MOST_NAMES);
    let blocks = code.blocks.as_slice();
    for number in 0..blocks.len() {
        let by = number + 1;
        mark_all(ids, marks, parameters(&blocks[number]), by)?;
        if let Some(lists) = asked.get(number) {
            let lists = lists.as_slice();
            tell_lists(
                &mut defaults,
                code,
                ids,
                marks,
                distinct,
                lists,
                number,
                by,
                &mut budget,
            )?;
        }
    }
    Ok(defaults)
}
