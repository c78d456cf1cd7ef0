//! The names of the methods of operators, and their signs (Language Reference 3.3.1, 3.3.8).
ghost use Rattle.std.specs.Prelude.{◌≡◌, ◌++◌, codes, IfOk};
ghost use Rattle.pt_content.specs.TypeErrors.{binary_sign, comparison_sign};
ghost use Rattle.pt_operators.specs.pt_moves.sem_rows.pt_host.Operators.{comparison_name, method_name};
ghost use Rattle.pt_operators.specs.pt_moves.sem_rows.pt_host.Operators.{reflected_name, sign_of};
ghost use Rattle.pt_operators.specs.pt_moves.sem_rows.pt_host.Operators.{turned_comparison, word_of};

use pt_base::{BinOp, CompareOp, Memory, Text};
use pt_content::Operator;
use std::alloc::Global;

fn word_of(op: BinOp) -> &'static str
    ensures { result.now ≡ word_of op }
{
    match op {
        BinOp::Add => "add",
        BinOp::Sub => "sub",
        BinOp::Mul => "mul",
        BinOp::Div => "truediv",
        BinOp::FloorDiv => "floordiv",
        BinOp::Mod => "mod",
        BinOp::Pow => "pow",
        BinOp::BitAnd => "and",
        BinOp::BitOr => "or",
        BinOp::BitXor => "xor",
        BinOp::LeftShift => "lshift",
        BinOp::RightShift => "rshift",
    }
}

fn binary_sign(op: BinOp) -> &'static str
    ensures { result.now ≡ binary_sign op }
{
    match op {
        BinOp::Add => "+",
        BinOp::Sub => "-",
        BinOp::Mul => "*",
        BinOp::Div => "/",
        BinOp::FloorDiv => "//",
        BinOp::Mod => "%",
        BinOp::Pow => "**",
        BinOp::BitAnd => "&",
        BinOp::BitOr => "|",
        BinOp::BitXor => "^",
        BinOp::LeftShift => "<<",
        BinOp::RightShift => ">>",
    }
}

fn comparison_name(op: CompareOp) -> &'static str
    ensures { result.now ≡ comparison_name op }
{
    match op {
        CompareOp::Less => "__lt__",
        CompareOp::LessEqual => "__le__",
        CompareOp::Greater => "__gt__",
        CompareOp::GreaterEqual => "__ge__",
        CompareOp::Equal => "__eq__",
        CompareOp::NotEqual => "__ne__",
        CompareOp::In | CompareOp::NotIn | CompareOp::Is | CompareOp::IsNot => "",
    }
}

fn comparison_sign(op: CompareOp) -> &'static str
    ensures { result.now ≡ comparison_sign op }
{
    match op {
        CompareOp::Less => "<",
        CompareOp::LessEqual => "<=",
        CompareOp::Greater => ">",
        CompareOp::GreaterEqual => ">=",
        CompareOp::Equal => "==",
        CompareOp::NotEqual => "!=",
        CompareOp::In => "in",
        CompareOp::NotIn => "not in",
        CompareOp::Is => "is",
        CompareOp::IsNot => "is not",
    }
}

/// The comparison the other way round.
fn turned_comparison(op: CompareOp) -> CompareOp
    ensures { result ≡ turned_comparison op }
{
    match op {
        CompareOp::Less => CompareOp::Greater,
        CompareOp::LessEqual => CompareOp::GreaterEqual,
        CompareOp::Greater => CompareOp::Less,
        CompareOp::GreaterEqual => CompareOp::LessEqual,
        _ => op,
    }
}

/// A word behind a text, and two underscores behind it.
fn name_with(alloc: Global, before: &str, word: &str) -> Result<Text, Memory>
    ensures { IfOk result (λ name. name ≡ before.now ++ (word.now ++ codes "__")) }
{
    let mut name = Text::from_str(alloc, before)?;
    name.push_str(word)?;
    name.push_str("__")?;
    Ok(name)
}

/// The name of the method of an operator that the first operand is asked for.
pub fn method_name(alloc: Global, operator: Operator) -> Result<Text, Memory>
    ensures { IfOk result (λ name. name ≡ method_name operator) }
{
    match operator {
        Operator::Binary(op) => name_with(alloc, "__", word_of(op)),
        Operator::Compare(op) => Text::from_str(alloc, comparison_name(op)),
    }
}

/// The name of its method that the second operand is asked for.
pub fn reflected_name(alloc: Global, operator: Operator) -> Result<Text, Memory>
    ensures { IfOk result (λ name. name ≡ reflected_name operator) }
{
    match operator {
        Operator::Binary(op) => name_with(alloc, "__r", word_of(op)),
        Operator::Compare(op) => Text::from_str(alloc, comparison_name(turned_comparison(op))),
    }
}

/// The sign of an operator.
pub fn sign_of(alloc: Global, operator: Operator) -> Result<Text, Memory>
    ensures { IfOk result (λ sign. sign ≡ sign_of operator) }
{
    match operator {
        Operator::Binary(op) => Text::from_str(alloc, binary_sign(op)),
        Operator::Compare(op) => Text::from_str(alloc, comparison_sign(op)),
    }
}
