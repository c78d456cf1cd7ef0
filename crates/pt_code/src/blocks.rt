ghost use Rattle.std.specs.Prelude.{◌≡◌, nat_le, IfOk, IfErr};
ghost use Rattle.pt_code.specs.File.{flags, is_module, stands_first, takes_arguments, may_count, parameter_count, may_be_free, naming, inside};
ghost use Rattle.pt_code.specs.Reading.{Gives, kept, counted_at, list_at, number_at, name_at, kind_at, rest_at, signature_at, names_at, tables_at, block_at, blocks_at};

use crate::fields::{kind_at, name_at, number_at, rest_at, size_at};
use crate::instructions::instructions_at;
use crate::lists::{Readable, items_behind, items_of, list_of, push};
use crate::parts::{Bad, Names, Signature, Tables, Within};
use crate::{BlockKind, CodeBlock, Rest, Start};
use pt_base::{Line, Seq};
use pt_instr::TextNo;
use pt_ranges::{ActMark, Handler};
use std::alloc::Global;

fn is_module(kind: BlockKind) -> bool
    ensures { result ≡ is_module kind }
{
    match kind {
        BlockKind::Module => true,
        _ => false,
    }
}

fn takes_arguments(kind: BlockKind) -> bool
    ensures { result ≡ takes_arguments kind }
{
    match kind {
        BlockKind::Function | BlockKind::Generator => true,
        _ => false,
    }
}

fn stands_first(first: bool, kind: BlockKind) -> bool
    ensures { result ≡ stands_first first kind }
{
    if first {
        is_module(kind)
    } else {
        !is_module(kind)
    }
}

#[tactic(auto)]
fn placed_kind_at(first: bool, bytes: &[u8]) -> Result<(BlockKind, &[u8]), Bad>
    ensures { Gives (λ x. (x.0, x.1.now)) result (kept (stands_first first) kind_at bytes.now) }
{
    let (kind, rest) = kind_at(bytes)?;
    if stands_first(first, kind) {
        Ok((kind, rest))
    } else {
        Err(Bad::Field(bytes.len()))
    }
}

/// A count of parameters, which is 0 unless the block takes arguments.
fn count_at(kind: BlockKind, bytes: &[u8]) -> Result<(u32, &[u8]), Bad>
    ensures { Gives (λ x. (x.0, x.1.now)) result (kept (may_count kind) number_at bytes.now) }
{
    let (count, rest) = number_at(bytes)?;
    if takes_arguments(kind) || count == 0 {
        Ok((count, rest))
    } else {
        Err(Bad::Field(bytes.len()))
    }
}

fn kept_rest_at(kind: BlockKind, bytes: &[u8]) -> Result<(Rest, &[u8]), Bad>
    ensures { Gives (λ x. (x.0, x.1.now)) result (kept (λ r. may_count kind (flags r)) rest_at bytes.now) }
{
    let (found, rest) = rest_at(bytes)?;
    if takes_arguments(kind) || !(found.positional || found.named) {
        Ok((found, rest))
    } else {
        Err(Bad::Field(bytes.len()))
    }
}

#[tactic(auto, unfolding(crate::specs::Reading::signature_at))]
fn signature_at(within: Within, bytes: &[u8]) -> Result<(Signature, &[u8]), Bad>
    ensures { Gives (λ x. (x.0, x.1.now)) result (signature_at within bytes.now) }
{
    let (name, rest) = name_at(within.texts, bytes)?;
    let (kind, rest) = placed_kind_at(within.first, rest)?;
    let (line, rest) = number_at(rest)?;
    let (parameters, rest) = count_at(kind, rest)?;
    let (taken, rest) = kept_rest_at(kind, rest)?;
    let (keyword_only, rest) = count_at(kind, rest)?;
    Ok((
        Signature {
            name,
            kind,
            first_line: Line(line),
            parameters,
            rest: taken,
            keyword_only,
        },
        rest,
    ))
}

fn parameter_count(s: &Signature) -> usize
    ensures { result ≡ parameter_count s.now }
{
    s.parameters as usize
        + s.keyword_only as usize
        + usize::from(s.rest.positional)
        + usize::from(s.rest.named)
}

/// The names of the locals, as many as there are parameters at least.
fn locals_at<'a>(
    alloc: Global,
    within: Within,
    parameters: usize,
    bytes: &'a [u8],
) -> Result<(Seq<TextNo>, &'a [u8]), Bad>
    ensures { Gives (λ x. (x.0, x.1.now)) result (counted_at (nat_le parameters) (name_at within.texts) bytes.now) }
{
    let (count, rest) = number_at(bytes)?;
    if parameters <= count as usize {
        items_of(alloc, count, within, rest)
    } else {
        Err(Bad::Field(bytes.len()))
    }
}

/// The free names, of which a module has none.
fn free_at<'a>(
    alloc: Global,
    within: Within,
    kind: BlockKind,
    bytes: &'a [u8],
) -> Result<(Seq<TextNo>, &'a [u8]), Bad>
    ensures { Gives (λ x. (x.0, x.1.now)) result (counted_at (may_be_free kind) (name_at within.texts) bytes.now) }
{
    let (count, rest) = number_at(bytes)?;
    if is_module(kind) && count != 0 {
        Err(Bad::Field(bytes.len()))
    } else {
        items_of(alloc, count, within, rest)
    }
}

#[tactic(auto, unfolding(crate::specs::Reading::names_at))]
fn names_at<'a>(
    alloc: Global,
    within: Within,
    s: &Signature,
    bytes: &'a [u8],
) -> Result<(Names, &'a [u8]), Bad>
    ensures { Gives (λ x. (x.0, x.1.now)) result (names_at within s.now bytes.now) }
{
    let (locals, rest) = locals_at(alloc, within, parameter_count(s), bytes)?;
    let (cells, rest) = list_of::<TextNo>(alloc, within, rest)?;
    let (free, rest) = free_at(alloc, within, s.kind, rest)?;
    Ok((
        Names {
            locals,
            cells,
            free,
        },
        rest,
    ))
}

#[tactic(auto, unfolding(crate::specs::Reading::tables_at))]
fn tables_at<'a>(alloc: Global, within: Within, bytes: &'a [u8]) -> Result<(Tables, &'a [u8]), Bad>
    ensures { Gives (λ x. (x.0, x.1.now)) result (tables_at bytes.now) }
{
    let (marks, rest) = list_of::<ActMark>(alloc, within, bytes)?;
    let (handlers, rest) = list_of::<Handler>(alloc, within, rest)?;
    let (starts, rest) = list_of::<Start>(alloc, within, rest)?;
    Ok((
        Tables {
            marks,
            handlers,
            starts,
        },
        rest,
    ))
}

fn naming(within: Within, names: &Names) -> Result<Within, Bad>
    ensures ok { IfOk result (λ w. w ≡ naming within names.now) }
    ensures err { IfErr result (λ e. e ≡ Bad.Memory) }
{
    match names.cells.len().checked_add(names.free.len()) {
        Some(cells) => Ok(Within {
            locals: names.locals.len(),
            cells,
            ..within
        }),
        None => Err(Bad::Memory),
    }
}

#[tactic(auto, unfolding(crate::specs::Reading::block_at))]
fn block_at<'a>(
    alloc: Global,
    within: Within,
    bytes: &'a [u8],
) -> Result<(CodeBlock, &'a [u8]), Bad>
    ensures { Gives (λ x. (x.0, x.1.now)) result (block_at within bytes.now) }
{
    let (s, rest) = signature_at(within, bytes)?;
    let (names, rest) = names_at(alloc, within, &s, rest)?;
    let inner = naming(within, &names)?;
    let (instructions, rest) = instructions_at(alloc, inner, rest)?;
    let (tables, rest) = tables_at(alloc, within, rest)?;
    Ok((
        CodeBlock {
            name: s.name,
            kind: s.kind,
            first_line: s.first_line,
            parameters: s.parameters,
            rest: s.rest,
            keyword_only: s.keyword_only,
            locals: names.locals,
            cells: names.cells,
            free: names.free,
            instructions,
            marks: tables.marks,
            handlers: tables.handlers,
            starts: tables.starts,
        },
        rest,
    ))
}

impl Readable for CodeBlock {
    ghost reading = { block_at };

    fn read<'a>(
        alloc: Global,
        within: Within,
        bytes: &'a [u8],
    ) -> Result<(CodeBlock, &'a [u8]), Bad> {
        block_at(alloc, within, bytes)
    }
}

pub fn inside(texts: usize, constants: usize, lists: usize, blocks: usize, first: bool) -> Within
    ensures { result ≡ inside texts constants lists blocks first }
{
    Within {
        texts,
        constants,
        lists,
        blocks,
        locals: 0,
        cells: 0,
        first,
    }
}

#[tactic(auto, unfolding(crate::specs::Reading::blocks_at))]
pub fn blocks_at<'a>(
    alloc: Global,
    texts: usize,
    constants: usize,
    lists: usize,
    bytes: &'a [u8],
) -> Result<(Seq<CodeBlock>, &'a [u8]), Bad>
    ensures { Gives (λ x. (x.0, x.1.now)) result (blocks_at texts constants lists bytes.now) }
{
    let (count, rest) = size_at(bytes)?;
    let within = inside(texts, constants, lists, count as usize, true);
    let (module, rest) = block_at(alloc, within, rest)?;
    let mut blocks = Seq::new(alloc);
    push(&mut blocks, module)?;
    let within = inside(texts, constants, lists, count as usize, false);
    items_behind(alloc, blocks, count - 1, within, rest)
}
