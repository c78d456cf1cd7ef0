ghost use Rattle.std.specs.Prelude.{◌≡◌, ◌<◌, ◌≤◌, ℕ, List, [], ◌∷◌, ◌++◌, take, drop, length, Some, IfSome, if◌then◌else◌};
ghost use Rattle.pt_instr.specs.declared.Instr.{Instr};
ghost use Rattle.pt_instr.specs.Encoding.{code_of, encoding, Fits, BeginsWith, StandsAt, unary_number, binary_number, comparison_number, conversion_number};
ghost use Rattle.pt_instr.specs.Decoding.{instr_of, word_of, front_of, unary_of, binary_of, comparison_of, conversion_of, flag_of};

use crate::code::coded;
use crate::table::instructions;
use crate::{ConstNo, Conversion, Instr, ListNo, SlotNo, TextNo};
use pt_base::{BinOp, BlockId, CompareOp, Pc, UnOp};

macro_rules! operand {
    ($x:ident u32) => { $x };
    ($x:ident $kind:ident) => { $kind($x) };
}

macro_rules! instr {
    ($name:ident ($x:ident $y:ident $z:ident)) => { Some(Instr::$name) };
    ($name:ident ($x:ident $y:ident $z:ident) UnOp) => { unary_of($x).map(|o| Instr::$name(o)) };
    ($name:ident ($x:ident $y:ident $z:ident) BinOp) => { binary_of($x).map(|o| Instr::$name(o)) };
    ($name:ident ($x:ident $y:ident $z:ident) CompareOp) => { comparison_of($x).map(|o| Instr::$name(o)) };
    ($name:ident ($x:ident $y:ident $z:ident) Conversion) => { conversion_of($x).map(|c| Instr::$name(c)) };
    ($name:ident ($x:ident $y:ident $z:ident) bool) => { flag_of($x).map(|given| Instr::$name(given)) };
    ($name:ident ($x:ident $y:ident $z:ident) $a:ident) => { Some(Instr::$name(operand!($x $a))) };
    ($name:ident ($x:ident $y:ident $z:ident) $a:ident $b:ident) => { Some(Instr::$name(operand!($x $a), operand!($y $b))) };
    ($name:ident ($x:ident $y:ident $z:ident) $a:ident $b:ident $c:ident) => {
        Some(Instr::$name(operand!($x $a), operand!($y $b), operand!($z $c)))
    };
}

macro_rules! instr_arms {
    (($of:expr, $words:tt) $( $number:literal $name:ident $( ( $($operand:ident : $kind:ident),+ ) )? { $($part:tt)* } )*) => {
        match $of {
            $( $number => instr!($name $words $($($kind)+)?), )*
            _ => None,
        }
    };
}

/// The instruction whose bytes stand at a place, and the place behind them.
pub fn decode(bytes: &[u8], at: usize) -> Option<(Instr, usize)>
    ensures found { IfSome result (λ f. StandsAt bytes.now f.0 at f.1) }
    ensures within { IfSome result (λ f. (at < f.1) × (f.1 ≤ length bytes.now)) }
    // Where the bytes of an instruction stand, it is that one.
    ensures only { (i : Instr) (end : ℕ) → Fits i → StandsAt bytes.now i at end → result ≡ Some (i, end) }
{
    match front_of(behind(bytes, at)) {
        Some((instr, width)) => Some((instr, at + width)),
        None => None,
    }
}

/// No instruction's bytes are the beginning of another's, so there is one way to read them.
pub fn one_reading()
    ensures { (i j : Instr) (x y : List ℕ) → Fits i → Fits j → encoding i ++ x ≡ encoding j ++ y → i ≡ j }
{}

/// The instruction with which the bytes begin, and how many of them it takes.
fn front_of(bytes: &[u8]) -> Option<(Instr, usize)>
    ensures exact { result ≡ front_of bytes.now }
    ensures found { IfSome result (λ f. BeginsWith bytes.now f.0 f.1) }
    ensures width { IfSome result (λ f. (0 < f.1) × (f.1 ≤ length bytes.now)) }
{
    let Some((number, rest)) = bytes.split_first() else {
        return None;
    };
    let second = behind(rest, 4);
    let third = behind(second, 4);
    match instr_of(*number, word_of(rest), word_of(second), word_of(third)) {
        Some(instr) => {
            let width = 4 * coded(&instr).operands.len();
            if rest.len() < width {
                None
            } else {
                Some((instr, 1 + width))
            }
        }
        None => None,
    }
}

fn behind(bytes: &[u8], count: usize) -> &[u8]
    ensures { result.now ≡ drop count bytes.now }
{
    if count < bytes.len() {
        &bytes[count..]
    } else {
        &[]
    }
}

/// The number that the first four bytes spell, or 0 where they are fewer.
fn word_of(bytes: &[u8]) -> u32
    ensures { result ≡ word_of bytes.now }
{
    match bytes {
        [a, b, c, d, ..] => u32::from_le_bytes([*a, *b, *c, *d]),
        _ => 0,
    }
}

/// The instruction with this number and the first so many of the words as its operands.
#[tactic(auto, unfolding(crate::specs::Decoding::instr_of, crate::specs::Encoding::code_of))]
fn instr_of(number: u8, x: u32, y: u32, z: u32) -> Option<Instr>
    ensures exact { result ≡ instr_of number x y z }
    ensures number { IfSome result (λ i. (code_of i).number ≡ number) }
    ensures operands { IfSome result (λ i. (code_of i).operands ≡ take (length (code_of i).operands) (x ∷ y ∷ z ∷ [])) }
{
    instructions!(instr_arms, (number, (x y z)), ())
}

fn unary_of(number: u32) -> Option<UnOp>
    ensures exact { result ≡ unary_of number }
    ensures number { IfSome result (λ o. unary_number o ≡ number) }
{
    match number {
        0 => Some(UnOp::Plus),
        1 => Some(UnOp::Minus),
        2 => Some(UnOp::Invert),
        _ => None,
    }
}

fn binary_of(number: u32) -> Option<BinOp>
    ensures exact { result ≡ binary_of number }
    ensures number { IfSome result (λ o. binary_number o ≡ number) }
{
    match number {
        0 => Some(BinOp::Add),
        1 => Some(BinOp::Sub),
        2 => Some(BinOp::Mul),
        3 => Some(BinOp::Div),
        4 => Some(BinOp::FloorDiv),
        5 => Some(BinOp::Mod),
        6 => Some(BinOp::Pow),
        7 => Some(BinOp::BitAnd),
        8 => Some(BinOp::BitOr),
        9 => Some(BinOp::BitXor),
        10 => Some(BinOp::LeftShift),
        11 => Some(BinOp::RightShift),
        _ => None,
    }
}

fn comparison_of(number: u32) -> Option<CompareOp>
    ensures exact { result ≡ comparison_of number }
    ensures number { IfSome result (λ o. comparison_number o ≡ number) }
{
    match number {
        0 => Some(CompareOp::Less),
        1 => Some(CompareOp::LessEqual),
        2 => Some(CompareOp::Greater),
        3 => Some(CompareOp::GreaterEqual),
        4 => Some(CompareOp::Equal),
        5 => Some(CompareOp::NotEqual),
        6 => Some(CompareOp::In),
        7 => Some(CompareOp::NotIn),
        8 => Some(CompareOp::Is),
        9 => Some(CompareOp::IsNot),
        _ => None,
    }
}

fn conversion_of(number: u32) -> Option<Conversion>
    ensures exact { result ≡ conversion_of number }
    ensures number { IfSome result (λ o. conversion_number o ≡ number) }
{
    match number {
        0 => Some(Conversion::Plain),
        1 => Some(Conversion::Str),
        2 => Some(Conversion::Repr),
        _ => None,
    }
}

fn flag_of(number: u32) -> Option<bool>
    ensures exact { result ≡ flag_of number }
    ensures number { IfSome result (λ given. (if given then 1 else 0) ≡ number) }
{
    match number {
        0 => Some(false),
        1 => Some(true),
        _ => None,
    }
}
