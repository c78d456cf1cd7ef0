ghost use Rattle.std.specs.Prelude.{◌≡◌, IfOk, map};
ghost use Rattle.pt_content.specs.TypeErrors.{binary_sign, binary_type_error, comparison_sign};
ghost use Rattle.pt_content.specs.TypeErrors.{error_of_one, error_of_two, order_type_error};
ghost use Rattle.pt_content.specs.TypeErrors.{bad_argument, sentence, unary_sign};
ghost use Rattle.pt_content.specs.TypeErrors.{unary_type_error, use_type_error};
ghost use Rattle.pt_content.specs.declared.content.Content.TheVariants.{Raise};

use crate::class::{TYPE_ERROR, class_name};
use crate::content::Content;
use pt_base::{BinOp, CompareOp, Memory, ObjId, Text, UnOp};
use pt_heap::{Heap, Value};
use std::alloc::Global;

fn binary_sign(op: BinOp) -> &'static str
    ensures { result.now ≡ binary_sign op }
{
    match op {
        BinOp::Add => "+",
        BinOp::Sub => "-",
        BinOp::Mul => "*",
        BinOp::Div => "/",
        BinOp::FloorDiv => "//",
        BinOp::Mod => "%",
        BinOp::Pow => "**",
        BinOp::BitAnd => "&",
        BinOp::BitOr => "|",
        BinOp::BitXor => "^",
        BinOp::LeftShift => "<<",
        BinOp::RightShift => ">>",
    }
}

fn unary_sign(op: UnOp) -> &'static str
    ensures { result.now ≡ unary_sign op }
{
    match op {
        UnOp::Plus => "+",
        UnOp::Minus => "-",
        UnOp::Invert => "~",
    }
}

fn comparison_sign(op: CompareOp) -> &'static str
    ensures { result.now ≡ comparison_sign op }
{
    match op {
        CompareOp::Less => "<",
        CompareOp::LessEqual => "<=",
        CompareOp::Greater => ">",
        CompareOp::GreaterEqual => ">=",
        CompareOp::Equal => "==",
        CompareOp::NotEqual => "!=",
        CompareOp::In => "in",
        CompareOp::NotIn => "not in",
        CompareOp::Is => "is",
        CompareOp::IsNot => "is not",
    }
}

/// Texts one behind the other.
pub fn sentence(alloc: Global, parts: &[&str]) -> Result<Text, Memory>
    ensures { IfOk result (λ text. text ≡ sentence (map (λ p. p.now) parts.now)) }
{
    let mut text = Text::new(alloc);
    for part in parts {
        text.push_str(part)?;
    }
    Ok(text)
}

/// A TypeError that names an operator and the class of its operand.
fn error_of_one<'a>(
    alloc: Global,
    before: &'a str,
    sign: &'a str,
    behind: &'a str,
    class: &'a str,
) -> Result<Content, Memory>
    ensures { IfOk result
        (λ content. content ≡ error_of_one before.now sign.now behind.now class.now) }
{
    let text = sentence(alloc, &[before, sign, behind, class, "'"])?;
    Ok(Content::Raise {
        class: TYPE_ERROR,
        text,
    })
}

/// A TypeError that names an operator and the classes of its operands.
pub fn error_of_two<'a>(
    alloc: Global,
    before: &'a str,
    sign: &'a str,
    behind: &'a str,
    a: &'a str,
    b: &'a str,
) -> Result<Content, Memory>
    ensures { IfOk result (λ content.
        content ≡ error_of_two before.now sign.now behind.now a.now b.now) }
{
    let text = sentence(alloc, &[before, sign, behind, a, "' and '", b, "'"])?;
    Ok(Content::Raise {
        class: TYPE_ERROR,
        text,
    })
}

/// An exception of a class with this text.
pub fn raise(alloc: Global, class: ObjId, text: &str) -> Result<Content, Memory>
    ensures { IfOk result (λ content. content ≡ Raise class text.now) }
{
    let text = Text::from_str(alloc, text)?;
    Ok(Content::Raise { class, text })
}

/// An argument that a call doesn't take: a TypeError for a wrong class, else a ValueError.
pub fn bad_argument(alloc: Global, class: ObjId) -> Result<Content, Memory>
    ensures { IfOk result (λ content. content ≡ bad_argument class) }
{
    raise(alloc, class, "bad argument")
}

/// A value isn't what it is used as.
pub fn use_type_error(
    alloc: Global,
    heap: &Heap,
    value: Value,
    what: &str,
) -> Result<Content, Memory>
    ensures { IfOk result (λ content. content ≡ use_type_error heap.now value what.now) }
{
    let parts = ["'", class_name(heap, value), "' object is not ", what];
    let text = sentence(alloc, &parts)?;
    Ok(Content::Raise {
        class: TYPE_ERROR,
        text,
    })
}

/// A binary operator doesn't take these operands.
pub fn binary_type_error(
    alloc: Global,
    op: BinOp,
    heap: &Heap,
    a: Value,
    b: Value,
) -> Result<Content, Memory>
    ensures { IfOk result (λ content. content ≡ binary_type_error op heap.now a b) }
{
    let before = "unsupported operand type(s) for ";
    let (a, b) = (class_name(heap, a), class_name(heap, b));
    error_of_two(alloc, before, binary_sign(op), ": '", a, b)
}

/// A unary operator doesn't take this operand.
pub fn unary_type_error(alloc: Global, op: UnOp, heap: &Heap, a: Value) -> Result<Content, Memory>
    ensures { IfOk result (λ content. content ≡ unary_type_error op heap.now a) }
{
    let before = "bad operand type for unary ";
    error_of_one(alloc, before, unary_sign(op), ": '", class_name(heap, a))
}

/// These operands have no order.
pub fn order_type_error(
    alloc: Global,
    op: CompareOp,
    heap: &Heap,
    a: Value,
    b: Value,
) -> Result<Content, Memory>
    ensures { IfOk result (λ content. content ≡ order_type_error op heap.now a b) }
{
    let behind = "' not supported between instances of '";
    let (a, b) = (class_name(heap, a), class_name(heap, b));
    error_of_two(alloc, "'", comparison_sign(op), behind, a, b)
}
