//! Operators and comparisons of integers (Language Reference 6.5 to 6.10).
ghost use Rattle.std.specs.Prelude.{◌≡◌, ◌∷◌, Some, drop, IfOk, IfSome, OnOk};
ghost use Rattle.pt_fast_rows.specs.FastPaths.{FastRow, Leads, integer_in, integers_compare};
ghost use Rattle.pt_frames.specs.declared.slot.Slot.TheVariants as slot;
ghost use Rattle.pt_heap.specs.declared.value.Value.TheVariants as value;
ghost use Rattle.pt_instr.specs.declared.Instr.TheVariants as instr;
ghost use Rattle.pt_operators.specs.pt_moves.Operands.{two_values};

use pt_base::{BinOp, CompareOp, Memory, Pc};
use pt_frames::{Slot, Slots};
use pt_heap::Value;
use pt_ints::{IntAns, binary};

/// The integer that a slot holds, if it holds one.
fn integer_in(slot: Option<Slot>) -> Option<i128>
    ensures { result ≡ integer_in slot }
{
    match slot {
        Some(Slot::Value(Value::Int(number))) => Some(number),
        _ => None,
    }
}

/// The two integers on top, of which the second is uppermost.
#[tactic(auto, using(crate::proofs::IntegerLemmas::two_there))]
fn two_integers(slots: &Slots) -> Option<(i128, i128)>
    ensures { IfSome result
        (λ q. two_values slots.now ≡ Some (value.Int q.0, value.Int q.1)) }
{
    let upper = integer_in(slots.get(0))?;
    let lower = integer_in(slots.get(1))?;
    Some((lower, upper))
}

/// Puts a value in place of the two slots on top.
#[tactic(auto, using(pt_moves::proofs::TakeLemmas::popped, crate::proofs::IntegerLemmas::replaced))]
fn replace_two(slots: &mut Slots, value: Value) -> Result<(), Memory>
    ensures { OnOk result (slots.new ≡ slot.Value value ∷ drop 2 slots.old) }
{
    slots.pop();
    slots.pop();
    slots.push(Slot::Value(value))
}

/// How two integers compare.
fn integers_compare(op: CompareOp, a: i128, b: i128) -> Option<bool>
    ensures { result ≡ integers_compare op a b }
{
    match op {
        CompareOp::Less => Some(a < b),
        CompareOp::LessEqual => Some(a <= b),
        CompareOp::Greater => Some(a > b),
        CompareOp::GreaterEqual => Some(a >= b),
        CompareOp::Equal => Some(a == b),
        CompareOp::NotEqual => Some(a != b),
        _ => None,
    }
}

/// A comparison of two integers (Language Reference 6.10.1).
pub fn fast_compare(op: CompareOp, next: Pc, slots: &mut Slots) -> Result<Option<Pc>, Memory>
    ensures { IfOk result
        (λ o. Leads next o (λ p. FastRow (instr.Compare op) p slots.old slots.new)
        (slots.new ≡ slots.old)) }
{
    let Some(pair) = two_integers(slots) else {
        return Ok(None);
    };
    let Some(truth) = integers_compare(op, pair.0, pair.1) else {
        return Ok(None);
    };
    replace_two(slots, Value::Bool(truth))?;
    Ok(Some(next))
}

/// A binary operator at two integers (Language Reference 6.5, 6.7 to 6.9).
pub fn fast_binary(op: BinOp, next: Pc, slots: &mut Slots) -> Result<Option<Pc>, Memory>
    ensures { IfOk result
        (λ o. Leads next o (λ p. FastRow (instr.Binary op) p slots.old slots.new)
        (slots.new ≡ slots.old)) }
{
    let Some(pair) = two_integers(slots) else {
        return Ok(None);
    };
    let IntAns::Value(number) = binary(op, pair.0, pair.1) else {
        return Ok(None);
    };
    replace_two(slots, Value::Int(number))?;
    Ok(Some(next))
}

/// The operator of an augmented assignment at two integers (Language Reference 7.2.1).
pub fn fast_in_place(op: BinOp, next: Pc, slots: &mut Slots) -> Result<Option<Pc>, Memory>
    ensures { IfOk result
        (λ o. Leads next o (λ p. FastRow (instr.InPlace op) p slots.old slots.new)
        (slots.new ≡ slots.old)) }
{
    let Some(pair) = two_integers(slots) else {
        return Ok(None);
    };
    let IntAns::Value(number) = binary(op, pair.0, pair.1) else {
        return Ok(None);
    };
    replace_two(slots, Value::Int(number))?;
    Ok(Some(next))
}
