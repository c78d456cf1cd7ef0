ghost use Rattle.std.specs.Prelude.{◌≡◌, ℕ, List, [], ◌∷◌, ◌++◌, IfOk, OnOk};
ghost use Rattle.std.specs.List.{flat_map};
ghost use Rattle.pt_code.specs.File.{number, integer, listed, text, constant, kind_byte, flags, one_if, named, mark, handler, start, signature, names, tables, block, file};

use crate::{BlockKind, Code, CodeBlock, Const, Rest, Start};
use pt_base::{Memory, Seq, Text};
use pt_instr::TextNo;
use pt_ranges::{ActMark, Handler};
use std::alloc::Global;

/// A value that has bytes in a code file.
trait Field {
    /// They.
    ghost spelling: { Self → List ℕ };

    fn put(&self, out: &mut Vec<u8>) -> Result<(), Memory>
        ensures { OnOk result (out.new.items ≡ out.old.items ++ spelling self.now) };
}

/// The file of a code.
#[tactic(auto, using(crate::proofs::Spelled::joined), unfolding(crate::specs::File::file))]
pub fn write(alloc: Global, code: &Code) -> Result<Vec<u8>, Memory>
    ensures { IfOk result (λ v. v.items ≡ file code.now) }
{
    let mut out = Vec::new(alloc);
    out.extend_from_slice(b"PTCF\x01")?;
    put_list(code.texts.as_slice(), &mut out)?;
    put_list(code.constants.as_slice(), &mut out)?;
    put_list(code.lists.as_slice(), &mut out)?;
    put_list(code.blocks.as_slice(), &mut out)?;
    Ok(out)
}

#[tactic(auto, using(crate::proofs::Spelled::joined))]
fn put_list<T: Field>(items: &[T], out: &mut Vec<u8>) -> Result<(), Memory>
    ensures { OnOk result (out.new.items ≡ out.old.items ++ listed T.spelling items.now) }
{
    put_count(items.len(), out)?;
    put_items(items, out)
}

#[tactic(auto, using(crate::proofs::Spelled::joined))]
fn put_items<T: Field>(items: &[T], out: &mut Vec<u8>) -> Result<(), Memory>
    ensures { OnOk result (out.new.items ≡ out.old.items ++ flat_map T.spelling items.now) }
{
    for item in items {
        item.put(out)?;
    }
    Ok(())
}

/// A count, which a file has no room for from 2^32 on.
fn put_count(count: usize, out: &mut Vec<u8>) -> Result<(), Memory>
    ensures { OnOk result (out.new.items ≡ out.old.items ++ number count) }
{
    match u32::try_from(count) {
        Ok(count) => put_number(count, out),
        Err(_) => Err(Memory),
    }
}

#[tactic(auto, unfolding(crate::specs::File::number))]
fn put_number(n: u32, out: &mut Vec<u8>) -> Result<(), Memory>
    ensures { OnOk result (out.new.items ≡ out.old.items ++ number n) }
{
    out.extend_from_slice(&n.to_le_bytes())?;
    Ok(())
}

#[tactic(auto, unfolding(crate::specs::File::integer))]
fn put_integer(n: i128, out: &mut Vec<u8>) -> Result<(), Memory>
    ensures { OnOk result (out.new.items ≡ out.old.items ++ integer n) }
{
    out.extend_from_slice(&n.to_le_bytes())?;
    Ok(())
}

fn put_byte(byte: u8, out: &mut Vec<u8>) -> Result<(), Memory>
    ensures { OnOk result (out.new.items ≡ out.old.items ++ byte ∷ []) }
{
    out.push(byte)?;
    Ok(())
}

#[tactic(auto, using(crate::proofs::Spelled::joined))]
fn put_bytes(bytes: &[u8], out: &mut Vec<u8>) -> Result<(), Memory>
    ensures { OnOk result (out.new.items ≡ out.old.items ++ text bytes.now) }
{
    put_count(bytes.len(), out)?;
    out.extend_from_slice(bytes)?;
    Ok(())
}

impl Field for u32 {
    ghost spelling = { λ n. number n };

    fn put(&self, out: &mut Vec<u8>) -> Result<(), Memory> {
        put_number(*self, out)
    }
}

impl Field for TextNo {
    ghost spelling = { λ t. named t };

    fn put(&self, out: &mut Vec<u8>) -> Result<(), Memory> {
        put_number(self.0, out)
    }
}

impl Field for Text {
    ghost spelling = { λ t. text t };

    fn put(&self, out: &mut Vec<u8>) -> Result<(), Memory> {
        put_bytes(self.as_str().as_bytes(), out)
    }
}

impl Field for Seq<u32> {
    ghost spelling = { λ s. listed number s };

    fn put(&self, out: &mut Vec<u8>) -> Result<(), Memory> {
        put_list(self.as_slice(), out)
    }
}

impl Field for Const {
    ghost spelling = { λ k. constant k };

    #[tactic(auto, using(crate::proofs::Spelled::joined))]
    fn put(&self, out: &mut Vec<u8>) -> Result<(), Memory> {
        match *self {
            Const::None => put_byte(0, out),
            Const::False => put_byte(1, out),
            Const::True => put_byte(2, out),
            Const::Int(n) => {
                put_byte(3, out)?;
                put_integer(n, out)
            }
            Const::Text(t) => {
                put_byte(4, out)?;
                put_number(t.0, out)
            }
            Const::Ellipsis => put_byte(5, out),
        }
    }
}

impl Field for ActMark {
    ghost spelling = { λ m. mark m };

    #[tactic(auto, using(crate::proofs::Spelled::joined))]
    fn put(&self, out: &mut Vec<u8>) -> Result<(), Memory> {
        put_number(self.pc.0, out)?;
        put_number(self.act.0, out)?;
        put_number(self.line.0, out)?;
        put_byte(u8::from(self.again), out)
    }
}

impl Field for Handler {
    ghost spelling = { λ h. handler h };

    #[tactic(auto, using(crate::proofs::Spelled::joined))]
    fn put(&self, out: &mut Vec<u8>) -> Result<(), Memory> {
        put_number(self.from.0, out)?;
        put_number(self.to.0, out)?;
        put_number(self.target.0, out)?;
        put_number(self.depth, out)?;
        put_byte(u8::from(self.always), out)
    }
}

impl Field for Start {
    ghost spelling = { λ s. start s };

    #[tactic(auto, using(crate::proofs::Spelled::joined))]
    fn put(&self, out: &mut Vec<u8>) -> Result<(), Memory> {
        put_number(self.pc.0, out)?;
        put_number(self.line.0, out)
    }
}

impl Field for CodeBlock {
    ghost spelling = { λ b. block b };

    #[tactic(auto, using(crate::proofs::Spelled::joined), unfolding(crate::specs::File::block))]
    fn put(&self, out: &mut Vec<u8>) -> Result<(), Memory> {
        put_signature(self, out)?;
        put_names(self, out)?;
        put_bytes(self.instructions.as_slice(), out)?;
        put_tables(self, out)
    }
}

#[tactic(auto, using(crate::proofs::Spelled::joined), unfolding(crate::specs::File::signature))]
fn put_signature(block: &CodeBlock, out: &mut Vec<u8>) -> Result<(), Memory>
    ensures { OnOk result (out.new.items ≡ out.old.items ++ signature block.now) }
{
    put_number(block.name.0, out)?;
    put_byte(kind_byte(block.kind), out)?;
    put_number(block.first_line.0, out)?;
    put_number(block.parameters, out)?;
    put_byte(flags(block.rest), out)?;
    put_number(block.keyword_only, out)
}

#[tactic(auto, using(crate::proofs::Spelled::joined), unfolding(crate::specs::File::names))]
fn put_names(block: &CodeBlock, out: &mut Vec<u8>) -> Result<(), Memory>
    ensures { OnOk result (out.new.items ≡ out.old.items ++ names block.now) }
{
    put_list(block.locals.as_slice(), out)?;
    put_list(block.cells.as_slice(), out)?;
    put_list(block.free.as_slice(), out)
}

#[tactic(auto, using(crate::proofs::Spelled::joined), unfolding(crate::specs::File::tables))]
fn put_tables(block: &CodeBlock, out: &mut Vec<u8>) -> Result<(), Memory>
    ensures { OnOk result (out.new.items ≡ out.old.items ++ tables block.now) }
{
    put_list(block.marks.as_slice(), out)?;
    put_list(block.handlers.as_slice(), out)?;
    put_list(block.starts.as_slice(), out)
}

fn kind_byte(kind: BlockKind) -> u8
    ensures { result ≡ kind_byte kind }
{
    match kind {
        BlockKind::Module => 0,
        BlockKind::Function => 1,
        BlockKind::Generator => 2,
        BlockKind::Class => 3,
        BlockKind::GeneratorExpression => 4,
    }
}

fn flags(rest: Rest) -> u8
    ensures { result ≡ flags rest }
{
    u8::from(rest.positional) + 2 * u8::from(rest.named)
}
