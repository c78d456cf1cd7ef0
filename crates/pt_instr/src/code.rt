ghost use Rattle.std.specs.Prelude.{◌≡◌};
ghost use Rattle.pt_instr.specs.Encoding.{code_of, listed, seen, unary_number, binary_number, comparison_number, conversion_number};

use crate::table::instructions;
use crate::{Conversion, Instr};
use pt_base::{BinOp, CompareOp, UnOp};

/// The operands of an instruction as numbers, in their order.
#[derive(Clone, Copy)]
pub enum Operands {
    /// It has none.
    None,
    /// It has one.
    One(u32),
    /// It has two.
    Two(u32, u32),
    /// It has three.
    Three(u32, u32, u32),
}

impl Operands {
    ghost use Rattle.std.specs.Prelude.{◌≡◌, length};
    ghost use Rattle.pt_instr.specs.Encoding.{listed};

    /// How many there are.
    pub fn len(&self) -> usize
        ensures { result ≡ length (listed self.now) }
    {
        match self {
            Operands::None => 0,
            Operands::One(_) => 1,
            Operands::Two(_, _) => 2,
            Operands::Three(_, _, _) => 3,
        }
    }
}

/// An instruction as numbers.
#[derive(Clone, Copy)]
pub struct Numbered {
    pub number: u8,
    pub operands: Operands,
}

macro_rules! operands {
    () => { Operands::None };
    ($x:expr) => { Operands::One($x) };
    ($x:expr, $y:expr) => { Operands::Two($x, $y) };
    ($x:expr, $y:expr, $z:expr) => { Operands::Three($x, $y, $z) };
}

macro_rules! number {
    ($n:ident u32) => { $n };
    ($given:ident bool) => { if $given { 1 } else { 0 } };
    ($operator:ident UnOp) => { unary_number($operator) };
    ($operator:ident BinOp) => { binary_number($operator) };
    ($operator:ident CompareOp) => { comparison_number($operator) };
    ($conversion:ident Conversion) => { conversion_number($conversion) };
    ($name:ident $other:ident) => { $name.0 };
}

macro_rules! code_arms {
    (($instr:expr) $( $number:literal $name:ident $( ( $($operand:ident : $kind:ident),+ ) )? { $($part:tt)* } )*) => {
        match $instr {
            $( Instr::$name $( ( $($operand),+ ) )? => Numbered {
                number: $number,
                operands: operands!($( $(number!($operand $kind)),+ )?),
            }, )*
        }
    };
}

/// The number of an instruction, and its operands as numbers.
#[tactic(auto, unfolding(crate::specs::Encoding::code_of))]
pub fn coded(instr: &Instr) -> Numbered
    ensures { seen result ≡ code_of instr.now }
{
    instructions!(code_arms, (*instr), ())
}

/// The operands of an instruction, as its bytes have them.
pub fn operand_numbers(instr: &Instr) -> Operands
    ensures { listed result ≡ (code_of instr.now).operands }
{
    coded(instr).operands
}

fn unary_number(operator: UnOp) -> u32
    ensures { result ≡ unary_number operator }
{
    match operator {
        UnOp::Plus => 0,
        UnOp::Minus => 1,
        UnOp::Invert => 2,
    }
}

fn binary_number(operator: BinOp) -> u32
    ensures { result ≡ binary_number operator }
{
    match operator {
        BinOp::Add => 0,
        BinOp::Sub => 1,
        BinOp::Mul => 2,
        BinOp::Div => 3,
        BinOp::FloorDiv => 4,
        BinOp::Mod => 5,
        BinOp::Pow => 6,
        BinOp::BitAnd => 7,
        BinOp::BitOr => 8,
        BinOp::BitXor => 9,
        BinOp::LeftShift => 10,
        BinOp::RightShift => 11,
    }
}

fn comparison_number(operator: CompareOp) -> u32
    ensures { result ≡ comparison_number operator }
{
    match operator {
        CompareOp::Less => 0,
        CompareOp::LessEqual => 1,
        CompareOp::Greater => 2,
        CompareOp::GreaterEqual => 3,
        CompareOp::Equal => 4,
        CompareOp::NotEqual => 5,
        CompareOp::In => 6,
        CompareOp::NotIn => 7,
        CompareOp::Is => 8,
        CompareOp::IsNot => 9,
    }
}

fn conversion_number(conversion: Conversion) -> u32
    ensures { result ≡ conversion_number conversion }
{
    match conversion {
        Conversion::Plain => 0,
        Conversion::Str => 1,
        Conversion::Repr => 2,
    }
}
