ghost use Rattle.std.specs.Prelude.{◌≡◌, ◌<◌, ◌^◌, length};
ghost use Rattle.pt_instr.specs.Encoding.{encoding, Fits};
ghost use Rattle.pt_assembler.specs.Layout.{width, FitsWell};

use crate::Operation;
use pt_instr::{Instr, Operands, operand_numbers};

/// How many bytes an instruction takes, and that its operands have four bytes each.
pub fn width_of(operation: &Operation) -> u32
    ensures width { result ≡ width operation.now }
    ensures fits { FitsWell operation.now }
{
    match *operation {
        Operation::Plain(instr) => instr_width(&instr),
        Operation::To(_, label) => word(label.0),
        Operation::Free(_, slot) => word(slot.0),
    }
}

fn word(operand: u32) -> u32
    ensures width { result ≡ 5 }
    ensures within { operand < 2 ^ 32 }
{
    let _ = operand;
    5
}

fn words(first: u32, second: u32) -> u32
    ensures width { result ≡ 9 }
    ensures first { first < 2 ^ 32 }
    ensures second { second < 2 ^ 32 }
{
    let _ = (first, second);
    9
}

fn instr_width(instr: &Instr) -> u32
    ensures width { result ≡ length (encoding instr.now) }
    ensures fits { Fits instr.now }
{
    match operand_numbers(instr) {
        Operands::None => 1,
        Operands::One(x) => word(x),
        Operands::Two(x, y) => words(x, y),
        Operands::Three(x, y, z) => words(x, y) + (word(z) - 1),
    }
}
