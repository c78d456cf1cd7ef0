//! Each form of expressions: operands from left to right, and then its own operation.
ghost use Rattle.std.specs.Prelude.{◌≡◌, [], ◌∷◌, true, map};
ghost use Rattle.law_additions.specs.Additions.{only_adds};
ghost use Rattle.pt_tree.specs.Fold.{all_of, chained, entry_of, exp_of, link_of, opt_exp, piece_of};
ghost use Rattle.pt_tree.specs.Syntax.{no_entries, no_links, no_pieces};
ghost use Rattle.pt_eval.specs.Evaluation.{anded, asked, entries_of, linked, of_one};
ghost use Rattle.pt_eval.specs.Evaluation.{of_several, ored, text_of, texts_of};
ghost use Rattle.pt_eval.specs.Evaluation.{value_if, value_of, values_of};
ghost use Rattle.pt_eval.specs.Steps.{and_then, Comes};

use crate::names::Names;
use crate::no_value::NoValue;
use crate::operations::{ask, attribute, constant, literal, named, spec, truth};
use crate::scratch::Scratch;
use pt_base::{Boxed, Failure, Seq};
use pt_content::Op;
use pt_heap::Value;
use pt_tree::{Comparison, Entry, Expr, ExprNode, Piece};
use std::alloc::Global;

/// The value of an expression.
#[cycle(evaluation)]
#[tactic(auto, using(pt_tree::proofs::Folds::expressions))]
pub fn value(
    alloc: Global,
    names: &Names,
    scratch: &mut Scratch,
    e: &Expr,
) -> Result<Value, Failure<NoValue>>
    ensures came { Comes (value_of names.now.locals.now names.now.globals.now (exp_of e.now)
        scratch.old.objects) result scratch.new.objects }
    ensures below { scratch.new.below ≡ scratch.old.below }
{
    match &e.node {
        ExprNode::Constant(value) => constant(alloc, scratch, value),
        ExprNode::Name(name) => named(alloc, scratch.heap(), names, name.as_str()),
        ExprNode::Joined(pieces) => joined(alloc, names, scratch, pieces.as_slice()),
        ExprNode::Tuple(items) => display(alloc, names, scratch, Op::Tuple, items.as_slice()),
        ExprNode::List(items) => display(alloc, names, scratch, Op::List, items.as_slice()),
        ExprNode::Set(items) => display(alloc, names, scratch, Op::Set, items.as_slice()),
        ExprNode::Dict(entries) => dictionary(alloc, names, scratch, entries.as_slice()),
        ExprNode::Attribute { object, name } => {
            let object = value(alloc, names, scratch, object.get())?;
            attribute(alloc, scratch, object, name.as_str())
        }
        ExprNode::Item { object, index } => {
            let object = value(alloc, names, scratch, object.get())?;
            second(alloc, names, scratch, Op::Item, object, index.get())
        }
        ExprNode::Slice { start, stop, step } => {
            let start = value_if(alloc, names, scratch, start)?;
            let stop = value_if(alloc, names, scratch, stop)?;
            let step = value_if(alloc, names, scratch, step)?;
            ask(alloc, scratch, Op::Slice, &[start, stop, step])
        }
        ExprNode::Unary { operator, operand } => {
            one(alloc, names, scratch, Op::Unary(*operator), operand.get())
        }
        ExprNode::Not(operand) => one(alloc, names, scratch, Op::Not, operand.get()),
        ExprNode::Binary {
            left,
            operator,
            right,
        } => {
            let left = value(alloc, names, scratch, left.get())?;
            second(
                alloc,
                names,
                scratch,
                Op::Binary(*operator),
                left,
                right.get(),
            )
        }
        ExprNode::Compare {
            left,
            operator,
            right,
            rest,
        } => {
            let left = value(alloc, names, scratch, left.get())?;
            let right = value(alloc, names, scratch, right.get())?;
            let first = ask(alloc, scratch, Op::Compare(*operator), &[left, right])?;
            linked(alloc, names, scratch, right, first, rest.as_slice())
        }
        ExprNode::And { first, rest } => {
            let first = value(alloc, names, scratch, first.get())?;
            anded(alloc, names, scratch, first, rest.as_slice())
        }
        ExprNode::Or { first, rest } => {
            let first = value(alloc, names, scratch, first.get())?;
            ored(alloc, names, scratch, first, rest.as_slice())
        }
        ExprNode::Conditional {
            test,
            body,
            otherwise,
        } => {
            let test = value(alloc, names, scratch, test.get())?;
            if truth(alloc, scratch, test)? {
                value(alloc, names, scratch, body.get())
            } else {
                value(alloc, names, scratch, otherwise.get())
            }
        }
        ExprNode::Call { .. } => Err(Failure::Refused(NoValue::Refused)),
        ExprNode::Lambda { .. } => Err(Failure::Refused(NoValue::Refused)),
        ExprNode::ListComprehension { .. } => Err(Failure::Refused(NoValue::Refused)),
        ExprNode::SetComprehension { .. } => Err(Failure::Refused(NoValue::Refused)),
        ExprNode::DictComprehension { .. } => Err(Failure::Refused(NoValue::Refused)),
        ExprNode::Generator { .. } => Err(Failure::Refused(NoValue::Refused)),
        ExprNode::Yield(_) => Err(Failure::Refused(NoValue::Refused)),
        ExprNode::YieldFrom(_) => Err(Failure::Refused(NoValue::Refused)),
    }
}

/// An operation on an operand.
#[cycle(evaluation)]
fn one(
    alloc: Global,
    names: &Names,
    scratch: &mut Scratch,
    op: Op,
    operand: &Expr,
) -> Result<Value, Failure<NoValue>>
    requires { only_adds op ≡ true }
    ensures came { Comes (of_one op (value_of names.now.locals.now names.now.globals.now
        (exp_of operand.now) scratch.old.objects)) result scratch.new.objects }
    ensures below { scratch.new.below ≡ scratch.old.below }
{
    let operand = value(alloc, names, scratch, operand)?;
    ask(alloc, scratch, op, &[operand])
}

/// An operation on a value and the operand behind it.
#[cycle(evaluation)]
fn second(
    alloc: Global,
    names: &Names,
    scratch: &mut Scratch,
    op: Op,
    left: Value,
    right: &Expr,
) -> Result<Value, Failure<NoValue>>
    requires { only_adds op ≡ true }
    ensures came { Comes (and_then (value_of names.now.locals.now names.now.globals.now
        (exp_of right.now) scratch.old.objects) (λ w. asked op (left ∷ w ∷ []))) result
        scratch.new.objects }
    ensures below { scratch.new.below ≡ scratch.old.below }
{
    let right = value(alloc, names, scratch, right)?;
    ask(alloc, scratch, op, &[left, right])
}

/// The display of a tuple, a list or a set.
#[cycle(evaluation)]
fn display(
    alloc: Global,
    names: &Names,
    scratch: &mut Scratch,
    op: Op,
    items: &[Expr],
) -> Result<Value, Failure<NoValue>>
    requires { only_adds op ≡ true }
    ensures came { Comes (of_several op (values_of names.now.locals.now names.now.globals.now
        (all_of (map exp_of items.now)) [] scratch.old.objects)) result scratch.new.objects }
    ensures below { scratch.new.below ≡ scratch.old.below }
{
    let items = values(alloc, names, scratch, items)?;
    ask(alloc, scratch, op, items.as_slice())
}

/// The display of a dictionary.
#[cycle(evaluation)]
fn dictionary(
    alloc: Global,
    names: &Names,
    scratch: &mut Scratch,
    entries: &[Entry],
) -> Result<Value, Failure<NoValue>>
    ensures came { Comes (of_several Op.Dict (entries_of names.now.locals.now
        names.now.globals.now (chained no_entries (map entry_of entries.now)) []
        scratch.old.objects)) result scratch.new.objects }
    ensures below { scratch.new.below ≡ scratch.old.below }
{
    let entries = keys_and_values(alloc, names, scratch, entries)?;
    ask(alloc, scratch, Op::Dict, entries.as_slice())
}

/// An f-string (Language Reference 2.4.3).
#[cycle(evaluation)]
fn joined(
    alloc: Global,
    names: &Names,
    scratch: &mut Scratch,
    pieces: &[Piece],
) -> Result<Value, Failure<NoValue>>
    ensures came { Comes (of_several Op.Join (texts_of names.now.locals.now names.now.globals.now
        (chained no_pieces (map piece_of pieces.now)) [] scratch.old.objects)) result
        scratch.new.objects }
    ensures below { scratch.new.below ≡ scratch.old.below }
{
    let parts = all_texts(alloc, names, scratch, pieces)?;
    ask(alloc, scratch, Op::Join, parts.as_slice())
}

/// The values of items, each evaluated behind the one before it.
#[cycle(evaluation)]
fn values(
    alloc: Global,
    names: &Names,
    scratch: &mut Scratch,
    items: &[Expr],
) -> Result<Seq<Value>, Failure<NoValue>>
    ensures came { Comes (values_of names.now.locals.now names.now.globals.now
        (all_of (map exp_of items.now)) [] scratch.old.objects) result scratch.new.objects }
    ensures below { scratch.new.below ≡ scratch.old.below }
{
    let mut values = Seq::new(alloc);
    for item in items {
        let given = value(alloc, names, scratch, item)?;
        values.push(given)?;
    }
    Ok(values)
}

/// The value of a part of a slice, None where it isn't written.
#[cycle(evaluation)]
#[tactic(auto, using(pt_tree::proofs::Folds::expressions))]
fn value_if(
    alloc: Global,
    names: &Names,
    scratch: &mut Scratch,
    e: &Option<Boxed<Expr>>,
) -> Result<Value, Failure<NoValue>>
    ensures came { Comes (value_if names.now.locals.now names.now.globals.now (opt_exp e.now)
        scratch.old.objects) result scratch.new.objects }
    ensures below { scratch.new.below ≡ scratch.old.below }
{
    match e {
        Some(e) => value(alloc, names, scratch, e.get()),
        None => Ok(Value::None),
    }
}

/// The keys and values of a dictionary's display, in turn.
#[cycle(evaluation)]
fn keys_and_values(
    alloc: Global,
    names: &Names,
    scratch: &mut Scratch,
    entries: &[Entry],
) -> Result<Seq<Value>, Failure<NoValue>>
    ensures came { Comes (entries_of names.now.locals.now names.now.globals.now
        (chained no_entries (map entry_of entries.now)) [] scratch.old.objects) result
        scratch.new.objects }
    ensures below { scratch.new.below ≡ scratch.old.below }
{
    let mut values = Seq::new(alloc);
    for entry in entries {
        let key = value(alloc, names, scratch, &entry.key)?;
        let given = value(alloc, names, scratch, &entry.value)?;
        values.push(key)?;
        values.push(given)?;
    }
    Ok(values)
}

/// The texts of the parts of an f-string, or of a spec (Language Reference 2.4.3).
#[cycle(evaluation)]
fn all_texts(
    alloc: Global,
    names: &Names,
    scratch: &mut Scratch,
    pieces: &[Piece],
) -> Result<Seq<Value>, Failure<NoValue>>
    ensures came { Comes (texts_of names.now.locals.now names.now.globals.now
        (chained no_pieces (map piece_of pieces.now)) [] scratch.old.objects) result
        scratch.new.objects }
    ensures below { scratch.new.below ≡ scratch.old.below }
{
    let mut texts = Seq::new(alloc);
    for piece in pieces {
        let given = text(alloc, names, scratch, piece)?;
        texts.push(given)?;
    }
    Ok(texts)
}

/// The text of a part of an f-string.
#[cycle(evaluation)]
#[tactic(auto, using(pt_tree::proofs::Folds::expressions))]
fn text(
    alloc: Global,
    names: &Names,
    scratch: &mut Scratch,
    piece: &Piece,
) -> Result<Value, Failure<NoValue>>
    ensures came { Comes (text_of names.now.locals.now names.now.globals.now
        (piece_of piece.now no_pieces) scratch.old.objects) result scratch.new.objects }
    ensures below { scratch.new.below ≡ scratch.old.below }
{
    match piece {
        Piece::Literal {
            text: literal_text,
            ..
        } => literal(alloc, scratch, literal_text),
        Piece::Field {
            value: given,
            conversion,
            spec: parts,
            ..
        } => {
            let given = value(alloc, names, scratch, given.get())?;
            let parts = all_texts(alloc, names, scratch, parts.as_slice())?;
            let spec = spec(alloc, scratch, parts.as_slice())?;
            ask(alloc, scratch, Op::Format(*conversion), &[given, spec])
        }
    }
}

/// The comparisons behind the first, as long as each is true (Language Reference 6.10).
#[cycle(evaluation)]
fn linked(
    alloc: Global,
    names: &Names,
    scratch: &mut Scratch,
    left: Value,
    first: Value,
    rest: &[Comparison],
) -> Result<Value, Failure<NoValue>>
    ensures came { Comes (linked names.now.locals.now names.now.globals.now
        (chained no_links (map link_of rest.now)) left first scratch.old.objects) result
        scratch.new.objects }
    ensures below { scratch.new.below ≡ scratch.old.below }
{
    let mut left = left;
    let mut last = first;
    for link in rest {
        if !truth(alloc, scratch, last)? {
            return Ok(last);
        }
        let right = value(alloc, names, scratch, &link.right)?;
        last = ask(alloc, scratch, Op::Compare(link.operator), &[left, right])?;
        left = right;
    }
    Ok(last)
}

/// The first value that isn't true, or the last (Language Reference 6.11).
#[cycle(evaluation)]
fn anded(
    alloc: Global,
    names: &Names,
    scratch: &mut Scratch,
    first: Value,
    rest: &[Expr],
) -> Result<Value, Failure<NoValue>>
    ensures came { Comes (anded names.now.locals.now names.now.globals.now
        (all_of (map exp_of rest.now)) first scratch.old.objects) result scratch.new.objects }
    ensures below { scratch.new.below ≡ scratch.old.below }
{
    let mut last = first;
    for operand in rest {
        if !truth(alloc, scratch, last)? {
            return Ok(last);
        }
        last = value(alloc, names, scratch, operand)?;
    }
    Ok(last)
}

/// The first value that is true, or the last (Language Reference 6.11).
#[cycle(evaluation)]
fn ored(
    alloc: Global,
    names: &Names,
    scratch: &mut Scratch,
    first: Value,
    rest: &[Expr],
) -> Result<Value, Failure<NoValue>>
    ensures came { Comes (ored names.now.locals.now names.now.globals.now
        (all_of (map exp_of rest.now)) first scratch.old.objects) result scratch.new.objects }
    ensures below { scratch.new.below ≡ scratch.old.below }
{
    let mut last = first;
    for operand in rest {
        if truth(alloc, scratch, last)? {
            return Ok(last);
        }
        last = value(alloc, names, scratch, operand)?;
    }
    Ok(last)
}
