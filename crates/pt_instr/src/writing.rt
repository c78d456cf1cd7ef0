ghost use Rattle.std.specs.Prelude.{◌≡◌, ◌∷◌, ◌++◌, List, OnOk, OnErr};
ghost use Rattle.std.specs.Int.{w32, to_le_bytes};
ghost use Rattle.pt_instr.specs.Encoding.{encoding, spelled, listed, Extends};

use crate::Instr;
use crate::code::{Numbered, Operands, coded};
use pt_base::{Memory, Seq};

/// Puts the bytes of an instruction behind those of a list, which stays as it was where memory
/// runs out.
pub fn encode(instr: &Instr, into: &mut Seq<u8>) -> Result<(), Memory>
    ensures ok { OnOk result (into.new ≡ into.old ++ encoding instr.now) }
    ensures err { OnErr result (into.new ≡ into.old) }
{
    let len = into.len();
    let written = put(&coded(instr), into);
    if written.is_err() {
        into.truncate(len);
    }
    written
}

#[tactic(auto, using(crate::proofs::Codec::joined))]
fn put(code: &Numbered, into: &mut Seq<u8>) -> Result<(), Memory>
    ensures ok { OnOk result (into.new ≡ into.old ++ code.now.number ∷ spelled (listed code.now.operands)) }
    ensures err { OnErr result (Extends into.old into.new) }
{
    into.push(code.number)?;
    put_operands(&code.operands, into)
}

#[tactic(auto, using(crate::proofs::Codec::joined))]
fn put_operands(operands: &Operands, into: &mut Seq<u8>) -> Result<(), Memory>
    ensures ok { OnOk result (into.new ≡ into.old ++ spelled (listed operands.now)) }
    ensures err { OnErr result (Extends into.old into.new) }
{
    match *operands {
        Operands::None => Ok(()),
        Operands::One(x) => put_word(x, into),
        Operands::Two(x, y) => put_words(x, y, into),
        Operands::Three(x, y, z) => {
            put_words(x, y, into)?;
            put_word(z, into)
        }
    }
}

#[tactic(auto, using(crate::proofs::Codec::joined))]
fn put_words(first: u32, second: u32, into: &mut Seq<u8>) -> Result<(), Memory>
    ensures ok { OnOk result (into.new ≡ into.old ++ (to_le_bytes w32 first ++ to_le_bytes w32 second)) }
    ensures err { OnErr result (Extends into.old into.new) }
{
    put_word(first, into)?;
    put_word(second, into)
}

fn put_word(word: u32, into: &mut Seq<u8>) -> Result<(), Memory>
    ensures ok { OnOk result (into.new ≡ into.old ++ to_le_bytes w32 word) }
    ensures err { OnErr result (Extends into.old into.new) }
{
    for byte in &word.to_le_bytes() {
        into.push(*byte)?;
    }
    Ok(())
}
