//! Binary operators at operands of which one is no number.

ghost use Rattle.std.specs.Prelude.{◌≡◌, ◌++◌, IfOk, IsTrue};
ghost use Rattle.pt_content.specs.pt_attrs.Look.{object_of};
ghost use Rattle.pt_content.specs.pt_attrs.pt_dicts.Combine.{is_set_operator};
ghost use Rattle.pt_strs.specs.Join.{copies};
ghost use Rattle.pt_content.specs.Operands.{operand_of};
ghost use Rattle.pt_methods.specs.pt_sequences.Displays.{times};
ghost use Rattle.pt_prims.specs.Sequences.{formatted, is_short, joined, object_repeated, objects_added};
ghost use Rattle.pt_prims.specs.Sequences.{repeated_by, repeated_text, sequences_binary};
ghost use Rattle.pt_prims.specs.Sequences.{sets_combined};

use pt_base::{BinOp, Memory, Seq, Text, What};
use pt_content::{Content, NewObject, Operand, binary_type_error, object_of, operand_of};
use pt_heap::{Heap, Object, Str, Value};
use pt_methods::{combined_content, list_content, repeated_list, repeated_tuple, tuple_content};
use pt_strs::LENGTH_LIMIT;
use std::alloc::Global;

/// One text behind another.
fn together(alloc: Global, a: &str, b: &str) -> Result<Text, Memory>
    ensures { IfOk result (λ text. text ≡ a.now ++ b.now) }
{
    let mut text = Text::from_str(alloc, a)?;
    text.push_str(b)?;
    Ok(text)
}

/// `a + b` of two texts (Library Reference, "Common Sequence Operations").
fn joined(alloc: Global, a: &Str, b: &Str) -> Result<Content, Memory>
    ensures { IfOk result (λ content. content ≡ joined a.now b.now) }
{
    if a.len().saturating_add(b.len()) > LENGTH_LIMIT {
        return Ok(Content::Outside(What::Length));
    }
    let text = together(alloc, a.text().as_str(), b.text().as_str())?;
    Ok(Content::New(NewObject::Text(text)))
}

/// How many times, none for a number below 0.
fn times(number: i128) -> u128
    ensures { result ≡ times number }
{
    if number < 0 {
        return 0;
    }
    number.unsigned_abs()
}

/// A text so many times.
#[tactic(auto, using(pt_strs::proofs::JoinLemmas::copies_more))]
fn copies(alloc: Global, count: usize, text: &str) -> Result<Text, Memory>
    ensures { IfOk result (λ t. t ≡ copies count text.now) }
{
    let mut all = Text::new(alloc);
    for _turn in 0..count {
        all.push_str(text)?;
    }
    Ok(all)
}

/// Whether a text so many times isn't too long.
fn is_short(number: i128, text: &Str) -> bool
    ensures { result ≡ is_short number text.now }
{
    times(number).saturating_mul(text.len() as u128) <= LENGTH_LIMIT as u128
}

/// A text so many times, where that isn't too long.
fn short_copies(alloc: Global, number: i128, text: &str) -> Result<Text, Memory>
    requires { IsTrue (is_short number text.now) }
    ensures { IfOk result (λ t. t ≡ copies (times number) text.now) }
{
    if text.is_empty() {
        return Ok(Text::new(alloc));
    }
    copies(alloc, times(number) as usize, text)
}

/// `*` of a text.
fn repeated_text(alloc: Global, number: i128, text: &Str) -> Result<Content, Memory>
    ensures { IfOk result (λ content. content ≡ repeated_text number text.now) }
{
    if !is_short(number, text) {
        return Ok(Content::Outside(What::Length));
    }
    let text = short_copies(alloc, number, text.text().as_str())?;
    Ok(Content::New(NewObject::Text(text)))
}

/// Values behind others.
pub fn concatenation(alloc: Global, a: &[Value], b: &[Value]) -> Result<Seq<Value>, Memory>
    ensures { IfOk result (λ values. values ≡ a.now ++ b.now) }
{
    let mut all = Vec::new(alloc);
    all.extend_from_slice(a)?;
    all.extend_from_slice(b)?;
    Ok(Seq::from_vec(all))
}

/// `+` of two texts, lists or tuples.
fn objects_added(alloc: Global, heap: &Heap, a: Value, b: Value) -> Result<Content, Memory>
    ensures { IfOk result (λ content. content
        ≡ objects_added heap.now a b (object_of heap.now a) (object_of heap.now b)) }
{
    match (object_of(heap, a), object_of(heap, b)) {
        (Some(Object::Str(a)), Some(Object::Str(b))) => joined(alloc, a, b),
        (Some(Object::List(a)), Some(Object::List(b))) => {
            Ok(list_content(concatenation(alloc, a.as_slice(), b.as_slice())?))
        }
        (Some(Object::Tuple(a)), Some(Object::Tuple(b))) => {
            Ok(tuple_content(concatenation(alloc, a.as_slice(), b.as_slice())?))
        }
        _ => binary_type_error(alloc, BinOp::Add, heap, a, b),
    }
}

/// `*` of a sequence, which is one of the operands.
fn object_repeated(
    alloc: Global,
    heap: &Heap,
    a: Value,
    b: Value,
    number: i128,
    sequence: Value,
) -> Result<Content, Memory>
    ensures { IfOk result (λ content. content
        ≡ object_repeated heap.now a b number (object_of heap.now sequence)) }
{
    match object_of(heap, sequence) {
        Some(Object::Str(text)) => repeated_text(alloc, number, text),
        Some(Object::List(items)) => repeated_list(alloc, number, items.as_slice()),
        Some(Object::Tuple(items)) => repeated_tuple(alloc, number, items.as_slice()),
        _ => binary_type_error(alloc, BinOp::Mul, heap, a, b),
    }
}

fn repeated_by(alloc: Global, heap: &Heap, a: Value, b: Value) -> Result<Content, Memory>
    ensures { IfOk result (λ content. content
        ≡ repeated_by heap.now a b (operand_of heap.now a) (operand_of heap.now b)) }
{
    match (operand_of(heap, a), operand_of(heap, b)) {
        (Operand::Number(number), _) => object_repeated(alloc, heap, a, b, number, b),
        (_, Operand::Number(number)) => object_repeated(alloc, heap, a, b, number, a),
        _ => binary_type_error(alloc, BinOp::Mul, heap, a, b),
    }
}

fn formatted(alloc: Global, heap: &Heap, a: Value, b: Value) -> Result<Content, Memory>
    ensures { IfOk result (λ content. content ≡ formatted heap.now a b (object_of heap.now a)) }
{
    match object_of(heap, a) {
        Some(Object::Str(_)) => Ok(Content::Outside(What::Feature)),
        _ => binary_type_error(alloc, BinOp::Mod, heap, a, b),
    }
}

fn sets_combined(
    alloc: Global,
    op: BinOp,
    heap: &Heap,
    a: Value,
    b: Value,
) -> Result<Content, Memory>
    requires { IsTrue (is_set_operator op) }
    ensures { IfOk result (λ content. content
        ≡ sets_combined op heap.now a b (object_of heap.now a) (object_of heap.now b)) }
{
    match (object_of(heap, a), object_of(heap, b)) {
        (Some(Object::Set(a)), Some(Object::Set(b))) => combined_content(alloc, op, a, b),
        _ => binary_type_error(alloc, op, heap, a, b),
    }
}

/// A binary operator at operands of which one is no number.
pub fn sequences_binary(
    alloc: Global,
    op: BinOp,
    heap: &Heap,
    a: Value,
    b: Value,
) -> Result<Content, Memory>
    ensures { IfOk result (λ content. content ≡ sequences_binary op heap.now a b) }
{
    match op {
        BinOp::Add => objects_added(alloc, heap, a, b),
        BinOp::Mul => repeated_by(alloc, heap, a, b),
        BinOp::Mod => formatted(alloc, heap, a, b),
        BinOp::Sub | BinOp::BitAnd | BinOp::BitOr | BinOp::BitXor => {
            sets_combined(alloc, op, heap, a, b)
        }
        BinOp::Div | BinOp::FloorDiv | BinOp::Pow | BinOp::LeftShift | BinOp::RightShift => {
            binary_type_error(alloc, op, heap, a, b)
        }
    }
}
