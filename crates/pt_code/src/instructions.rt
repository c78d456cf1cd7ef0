ghost use Rattle.std.specs.Prelude.{◌≡◌, ◌≤◌, length, option_map, IfOk, IfSome, IfErr};
ghost use Rattle.pt_code.specs.File.{bound};
ghost use Rattle.pt_code.specs.Reading.{Gives, operands_of, operands_at, instr_at, pass, instructions_at};

use crate::fields::{below_at, size_at, taken_at};
use crate::parts::{Bad, Operand, Within};
use pt_base::{Seq, Text};
use std::alloc::Global;

macro_rules! operands_by_number {
    ($of:expr, $($number:literal [$($operand:ident)*])*) => {
        match $of {
            $( $number => Some(&[$(Operand::$operand),*]), )*
            _ => None,
        }
    };
}

/// What the operands of an operation are.
#[tactic(auto, unfolding(crate::specs::Reading::operands_of))]
fn operands_of(operation: u8) -> Option<&'static [Operand]>
    ensures exact { option_map (λ os. os.now) result ≡ operands_of operation }
    ensures few { IfSome result (λ os. length os.now ≤ 3) }
{
    operands_by_number!(operation,
        0 [] 1 [Constant] 2 [Local] 3 [Local] 4 [Local] 5 [Cell] 6 [Cell] 7 [Cell] 8 [Text]
        9 [Text] 10 [Text] 11 [Text] 12 [Text] 13 [Text] 14 [Cell] 15 [] 16 [] 17 [] 18 [] 19 []
        20 [Text] 21 [Text] 22 [Text] 23 [] 24 [] 25 [] 26 [] 27 [Unary] 28 [] 29 [Binary]
        30 [Binary] 31 [Comparison] 32 [Number] 33 [Number] 34 [Number] 35 [Number] 36 [Number]
        37 [Number] 38 [Number] 39 [Conversion] 40 [Number] 41 [Number] 42 [Number Number] 43 []
        44 [] 45 [Number] 46 [Number List] 47 [Number List] 48 [Block Number List] 49 [Block]
        50 [Block] 51 [] 52 [Number] 53 [Number] 54 [Number] 55 [Number] 56 [Number] 57 [Number]
        58 [] 59 [] 60 [] 61 [] 62 [] 63 [] 64 [] 65 [] 66 [] 67 [] 68 [] 69 [] 70 [] 71 []
        72 [Number] 73 [Text] 74 [Text] 75 [Flag] 76 [] 77 [] 78 [] 79 [Local] 80 [Cell]
    )
}

pub fn bound(within: Within, operand: Operand) -> usize
    ensures { result ≡ bound within operand }
{
    match operand {
        Operand::Number => 4_294_967_296,
        Operand::Constant => within.constants,
        Operand::Text => within.texts,
        Operand::Local => within.locals,
        Operand::Cell => within.cells,
        Operand::List => within.lists,
        Operand::Block => within.blocks,
        Operand::Unary | Operand::Conversion => 3,
        Operand::Binary => 12,
        Operand::Comparison => 10,
        Operand::Flag => 2,
    }
}

/// The bytes behind the operands.
fn operands_at<'a>(within: Within, operands: &[Operand], bytes: &'a [u8]) -> Result<&'a [u8], Bad>
    ensures { Gives (λ rest. rest.now) result (operands_at within operands.now bytes.now) }
{
    let mut rest = bytes;
    for operand in operands {
        let (_, behind) = below_at(bound(within, *operand), rest)?;
        rest = behind;
    }
    Ok(rest)
}

/// The bytes behind an instruction, and how many of those that instructions have are left.
#[tactic(auto, unfolding(crate::specs::Reading::instr_at))]
fn instr_at(within: Within, left: usize, bytes: &[u8]) -> Result<(&[u8], usize), Bad>
    ensures { Gives (λ x. (x.0.now, x.1)) result (instr_at within left bytes.now) }
{
    let [operation, rest @ ..] = bytes else {
        return Err(Bad::Short);
    };
    let Some(operands) = operands_of(*operation) else {
        return Err(Bad::Field(bytes.len()));
    };
    let width = 1 + 4 * operands.len();
    if left < width {
        return Err(Bad::Field(bytes.len()));
    }
    let behind = operands_at(within, operands, rest)?;
    Ok((behind, left - width))
}

/// Goes through the instructions of so many bytes, each of which takes one at least.
fn pass<'a>(within: Within, count: u32, bytes: &'a [u8]) -> Result<&'a [u8], Bad>
    ensures { Gives (λ rest. rest.now) result (pass within count count bytes.now) }
{
    let mut left = count as usize;
    let mut rest = bytes;
    for counter in 0..count {
        if left == 0 {
            return Ok(rest);
        }
        let (behind, less) = instr_at(within, left, rest)?;
        rest = behind;
        left = less;
    }
    Ok(rest)
}

fn copied(alloc: Global, bytes: &[u8]) -> Result<Seq<u8>, Bad>
    ensures ok { IfOk result (λ s. s ≡ bytes.now) }
    ensures err { IfErr result (λ e. e ≡ Bad.Memory) }
{
    match Seq::from_slice(alloc, bytes) {
        Ok(copy) => Ok(copy),
        Err(_) => Err(Bad::Memory),
    }
}

#[tactic(auto, unfolding(crate::specs::Reading::instructions_at))]
pub fn instructions_at<'a>(
    alloc: Global,
    within: Within,
    bytes: &'a [u8],
) -> Result<(Seq<u8>, &'a [u8]), Bad>
    ensures { Gives (λ x. (x.0, x.1.now)) result (instructions_at within bytes.now) }
{
    let (count, rest) = size_at(bytes)?;
    pass(within, count, rest)?;
    let (instructions, rest) = taken_at(count as usize, rest)?;
    let instructions = copied(alloc, instructions)?;
    Ok((instructions, rest))
}
