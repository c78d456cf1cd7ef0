//! The blocks and comprehensions in expressions and targets (Language Reference 6, 7.2).

ghost use Rattle.std.specs.Prelude.{◌≡◌, ◌+◌, map, IfOk, OnOk};
ghost use Rattle.pt_block_shapes.specs.outliner.Outline.{◌⨾◌, acts, behind, beginning, evaluated_first};
ghost use Rattle.pt_block_shapes.specs.outliner.Parts.{outline_all, outline_args, outline_clauses, outline_conditions, outline_entries, outline_exp, outline_formals, outline_links, outline_operands, outline_opt, outline_params, outline_pieces, outline_place, outline_target, outline_targets};
ghost use Rattle.pt_tree.specs.Fold.{all_of, argument_of, chained, clause_of, clauses_of, entry_of, exp_of, formal_of, link_of, opt_exp, parameters_of, piece_of, place_node_of, target_of, targets_of};
ghost use Rattle.pt_tree.specs.Sizes.{joins};
ghost use Rattle.pt_tree.specs.Syntax.{no_args, no_entries, no_formals, no_links, no_pieces};

use crate::outliner::outliner::Outliner;
use crate::outliner::turn::Turn;
use pt_base::{Boxed, Line, Memory, Shared, Text};
use pt_tree::{
    Argument, Clause, Comparison, Entry, Expr, ExprNode, Parameter, Parameters, Piece, PlaceNode,
    Target, TargetNode,
};

#[cycle(expressions)]
#[tactic(auto, using(pt_tree::proofs::Folds::expressions, crate::proofs::outliner::Steps::parts))]
pub fn expression(
    o: &mut Outliner,
    evaluated: bool,
    class: &Shared<Text>,
    e: &Expr,
) -> Result<(), Memory>
    ensures { OnOk result (o.new ≡ behind o.old (outline_exp evaluated class.now (exp_of e.now))) }
{
    match &e.node {
        ExprNode::Constant(_) => o.count(1),
        ExprNode::Name(_) => o.count(1),
        ExprNode::Joined(parts) => {
            pieces(o, evaluated, class, parts.as_slice())?;
            o.count(1)
        }
        ExprNode::Tuple(items) => {
            all(o, evaluated, class, items.as_slice())?;
            o.count(1)
        }
        ExprNode::List(items) => {
            all(o, evaluated, class, items.as_slice())?;
            o.count(1)
        }
        ExprNode::Set(items) => {
            all(o, evaluated, class, items.as_slice())?;
            o.count(1)
        }
        ExprNode::Dict(items) => {
            entries(o, evaluated, class, items.as_slice())?;
            o.count(1)
        }
        ExprNode::Attribute { object, .. } => {
            expression(o, evaluated, class, object.get())?;
            o.count(1)
        }
        ExprNode::Item { object, index } => {
            expression(o, evaluated, class, object.get())?;
            expression(o, evaluated, class, index.get())?;
            o.count(1)
        }
        ExprNode::Slice { start, stop, step } => {
            boxed(o, evaluated, class, start)?;
            boxed(o, evaluated, class, stop)?;
            boxed(o, evaluated, class, step)?;
            o.count(1)
        }
        ExprNode::Unary { operand, .. } => {
            expression(o, evaluated, class, operand.get())?;
            o.count(1)
        }
        ExprNode::Not(operand) => {
            expression(o, evaluated, class, operand.get())?;
            o.count(1)
        }
        ExprNode::Binary { left, right, .. } => {
            expression(o, evaluated, class, left.get())?;
            expression(o, evaluated, class, right.get())?;
            o.count(1)
        }
        ExprNode::Compare {
            left,
            right,
            rest,
            ..
        } => {
            expression(o, evaluated, class, left.get())?;
            expression(o, evaluated, class, right.get())?;
            o.count(1)?;
            links(o, evaluated, class, rest.as_slice())
        }
        ExprNode::And { first, rest } => {
            expression(o, evaluated, class, first.get())?;
            operands(o, evaluated, class, rest.as_slice())
        }
        ExprNode::Or { first, rest } => {
            expression(o, evaluated, class, first.get())?;
            operands(o, evaluated, class, rest.as_slice())
        }
        ExprNode::Conditional {
            test,
            body,
            otherwise,
        } => {
            let mut first = o.aside(o.act());
            expression(&mut first, evaluated, class, test.get())?;
            first.count(1)?;
            o.number_from(first.act());
            expression(o, evaluated, class, body.get())?;
            o.list(first)?;
            expression(o, evaluated, class, otherwise.get())
        }
        ExprNode::Call { callee, arguments } => {
            expression(o, evaluated, class, callee.get())?;
            passed(o, evaluated, class, arguments.as_slice())?;
            o.count(1)
        }
        ExprNode::Lambda {
            parameters,
            body,
            ..
        } => {
            o.open_block(class, true)?;
            defaults(o, evaluated, class, parameters)?;
            let act = o.act();
            o.number_from(0);
            expression(o, true, class, body.get())?;
            o.number_from(act);
            o.count(1)
        }
        ExprNode::ListComprehension { item, first, rest } => {
            let iterable = iterable(o, evaluated, class, first.get())?;
            let mut turn = turn(&iterable, evaluated, class, first.get())?;
            clauses(&mut turn.clauses, evaluated, class, rest.as_slice())?;
            let mut made = o.aside(turn.clauses.act());
            expression(&mut made, evaluated, class, item.get())?;
            made.count(1)?;
            turn.comprehension(o, evaluated, iterable, made)
        }
        ExprNode::SetComprehension { item, first, rest } => {
            let iterable = iterable(o, evaluated, class, first.get())?;
            let mut turn = turn(&iterable, evaluated, class, first.get())?;
            clauses(&mut turn.clauses, evaluated, class, rest.as_slice())?;
            let mut made = o.aside(turn.clauses.act());
            expression(&mut made, evaluated, class, item.get())?;
            made.count(1)?;
            turn.comprehension(o, evaluated, iterable, made)
        }
        ExprNode::DictComprehension {
            key,
            value,
            first,
            rest,
        } => {
            let iterable = iterable(o, evaluated, class, first.get())?;
            let mut turn = turn(&iterable, evaluated, class, first.get())?;
            clauses(&mut turn.clauses, evaluated, class, rest.as_slice())?;
            let mut made = o.aside(turn.clauses.act());
            expression(&mut made, evaluated, class, key.get())?;
            expression(&mut made, evaluated, class, value.get())?;
            made.count(1)?;
            turn.comprehension(o, evaluated, iterable, made)
        }
        ExprNode::Generator {
            item,
            first,
            rest,
            ..
        } => {
            let iterable = iterable(o, evaluated, class, first.get())?;
            let mut turn = turn(&o.aside(0), true, class, first.get())?;
            clauses(&mut turn.clauses, true, class, rest.as_slice())?;
            let mut made = o.aside(turn.clauses.act());
            expression(&mut made, true, class, item.get())?;
            turn.generator(o, class, iterable, made)
        }
        ExprNode::Yield(value) => {
            boxed(o, evaluated, class, value)?;
            o.count(1)
        }
        ExprNode::YieldFrom(iterable) => {
            expression(o, evaluated, class, iterable.get())?;
            o.count(2)
        }
    }
}

#[cycle(expressions)]
#[tactic(auto, using(pt_tree::proofs::Folds::expressions, crate::proofs::outliner::Steps::parts))]
fn boxed(
    o: &mut Outliner,
    evaluated: bool,
    class: &Shared<Text>,
    e: &Option<Boxed<Expr>>,
) -> Result<(), Memory>
    ensures { OnOk result (o.new ≡ behind o.old
        (outline_opt evaluated class.now (opt_exp e.now))) }
{
    match e {
        None => Ok(()),
        Some(e) => expression(o, evaluated, class, e.get()),
    }
}

#[cycle(expressions)]
#[tactic(auto, using(pt_tree::proofs::Folds::expressions, crate::proofs::outliner::Steps::parts))]
fn all(
    o: &mut Outliner,
    evaluated: bool,
    class: &Shared<Text>,
    items: &[Expr],
) -> Result<(), Memory>
    ensures { OnOk result (o.new ≡ behind o.old
        (outline_all evaluated class.now (all_of (map exp_of items.now)))) }
{
    for item in items {
        expression(o, evaluated, class, item)?;
    }
    Ok(())
}

/// What stands behind an `and` or `or`, each behind its decision.
#[cycle(expressions)]
#[tactic(auto, using(pt_tree::proofs::Folds::expressions, crate::proofs::outliner::Steps::parts))]
fn operands(
    o: &mut Outliner,
    evaluated: bool,
    class: &Shared<Text>,
    items: &[Expr],
) -> Result<(), Memory>
    ensures { OnOk result (o.new ≡ behind o.old
        (outline_operands evaluated class.now (all_of (map exp_of items.now)))) }
{
    for item in items {
        o.count(1)?;
        expression(o, evaluated, class, item)?;
    }
    Ok(())
}

/// The conditions of a clause, each before its decision.
#[cycle(expressions)]
#[tactic(auto, using(pt_tree::proofs::Folds::expressions, crate::proofs::outliner::Steps::parts))]
fn conditions(
    o: &mut Outliner,
    evaluated: bool,
    class: &Shared<Text>,
    tests: &[Expr],
) -> Result<(), Memory>
    ensures { OnOk result (o.new ≡ behind o.old
        (outline_conditions evaluated class.now (map exp_of tests.now))) }
{
    for test in tests {
        expression(o, evaluated, class, test)?;
        o.count(1)?;
    }
    Ok(())
}

#[cycle(expressions)]
#[tactic(auto, using(pt_tree::proofs::Folds::expressions, crate::proofs::outliner::Steps::parts))]
fn links(
    o: &mut Outliner,
    evaluated: bool,
    class: &Shared<Text>,
    rest: &[Comparison],
) -> Result<(), Memory>
    ensures { OnOk result (o.new ≡ behind o.old
        (outline_links evaluated class.now (chained no_links (map link_of rest.now)))) }
{
    for link in rest {
        o.count(1)?;
        expression(o, evaluated, class, &link.right)?;
        o.count(1)?;
    }
    Ok(())
}

#[cycle(expressions)]
#[tactic(auto, using(pt_tree::proofs::Folds::expressions, crate::proofs::outliner::Steps::parts))]
fn entries(
    o: &mut Outliner,
    evaluated: bool,
    class: &Shared<Text>,
    items: &[Entry],
) -> Result<(), Memory>
    ensures { OnOk result (o.new ≡ behind o.old
        (outline_entries evaluated class.now (chained no_entries (map entry_of items.now)))) }
{
    for entry in items {
        expression(o, evaluated, class, &entry.key)?;
        expression(o, evaluated, class, &entry.value)?;
    }
    Ok(())
}

/// The parts of an f-string, or of the spec of a field.
#[cycle(expressions)]
#[tactic(auto, using(pt_tree::proofs::Folds::expressions, crate::proofs::outliner::Steps::parts))]
fn pieces(
    o: &mut Outliner,
    evaluated: bool,
    class: &Shared<Text>,
    parts: &[Piece],
) -> Result<(), Memory>
    ensures { OnOk result (o.new ≡ behind o.old
        (outline_pieces evaluated class.now (chained no_pieces (map piece_of parts.now)))) }
{
    for part in parts {
        piece(o, evaluated, class, part)?;
    }
    Ok(())
}

#[cycle(expressions)]
#[tactic(auto, using(pt_tree::proofs::Folds::expressions, crate::proofs::outliner::Steps::parts))]
fn piece(
    o: &mut Outliner,
    evaluated: bool,
    class: &Shared<Text>,
    part: &Piece,
) -> Result<(), Memory>
    ensures { OnOk result ((r : _) → behind o.new (outline_pieces evaluated class.now r)
        ≡ behind o.old (outline_pieces evaluated class.now (piece_of part.now r))) }
{
    match part {
        Piece::Literal { .. } => o.count(1),
        Piece::Field { value, spec, .. } => {
            expression(o, evaluated, class, value.get())?;
            pieces(o, evaluated, class, spec.as_slice())?;
            joined(o, spec.as_slice())?;
            o.count(1)
        }
    }
}

/// The parts of a spec are joined where there are several.
#[tactic(auto, using(crate::proofs::outliner::Steps::joined))]
fn joined(o: &mut Outliner, spec: &[Piece]) -> Result<(), Memory>
    ensures { OnOk result (o.new ≡ behind o.old
        (acts (joins (chained no_pieces (map piece_of spec.now))))) }
{
    if spec.len() > 1 { o.count(1) } else { Ok(()) }
}

#[cycle(expressions)]
#[tactic(auto, using(pt_tree::proofs::Folds::expressions, crate::proofs::outliner::Steps::parts))]
fn passed(
    o: &mut Outliner,
    evaluated: bool,
    class: &Shared<Text>,
    values: &[Argument],
) -> Result<(), Memory>
    ensures { OnOk result (o.new ≡ behind o.old
        (outline_args evaluated class.now (chained no_args (map argument_of values.now)))) }
{
    for value in values {
        argument(o, evaluated, class, value)?;
    }
    Ok(())
}

#[cycle(expressions)]
#[tactic(auto, using(pt_tree::proofs::Folds::expressions, crate::proofs::outliner::Steps::parts))]
fn argument(
    o: &mut Outliner,
    evaluated: bool,
    class: &Shared<Text>,
    value: &Argument,
) -> Result<(), Memory>
    ensures { OnOk result ((r : _) → behind o.new (outline_args evaluated class.now r)
        ≡ behind o.old (outline_args evaluated class.now (argument_of value.now r))) }
{
    match value {
        Argument::Positional(value) => expression(o, evaluated, class, value),
        Argument::Named { value, .. } => expression(o, evaluated, class, value),
        Argument::Spread(value) => {
            expression(o, evaluated, class, value)?;
            o.count(1)
        }
        Argument::SpreadNamed(value) => {
            expression(o, evaluated, class, value)?;
            o.count(1)
        }
    }
}

/// The first iterable of a comprehension, aside, with the acts up to the first Next.
#[cycle(expressions)]
#[tactic(auto, using(pt_tree::proofs::Folds::expressions, crate::proofs::outliner::Steps::parts))]
fn iterable(
    o: &Outliner,
    evaluated: bool,
    class: &Shared<Text>,
    first: &Clause,
) -> Result<Outliner, Memory>
    ensures { IfOk result (λ i. i ≡ behind (beginning o.now.act)
        (outline_exp evaluated class.now (clause_of first.now).iterable ⨾ acts 2)) }
{
    let mut iterable = o.aside(o.act());
    expression(&mut iterable, evaluated, class, &first.iterable)?;
    iterable.count(2)?;
    Ok(iterable)
}

/// The first target of a comprehension and its conditions, aside, behind a Next with a number.
#[cycle(expressions)]
#[tactic(auto, using(pt_tree::proofs::Folds::expressions, crate::proofs::outliner::Steps::parts))]
fn turn(o: &Outliner, evaluated: bool, class: &Shared<Text>, first: &Clause) -> Result<Turn, Memory>
    ensures target { IfOk result (λ t. t.target ≡ behind (beginning (o.now.act + 1))
        (outline_target evaluated class.now (clause_of first.now).target)) }
    ensures clauses { IfOk result (λ t. t.clauses ≡ behind (beginning t.target.act)
        (outline_conditions evaluated class.now (clause_of first.now).conditions)) }
{
    let mut bound = o.aside(o.act().checked_add(1).ok_or(Memory)?);
    target(&mut bound, evaluated, class, &first.target)?;
    let mut tests = o.aside(bound.act());
    conditions(&mut tests, evaluated, class, first.conditions.as_slice())?;
    Ok(Turn {
        target: bound,
        clauses: tests,
    })
}

/// The clauses behind the first: an iterable is evaluated before its target is bound.
#[cycle(expressions)]
#[tactic(auto, using(pt_tree::proofs::Folds::expressions, crate::proofs::outliner::Steps::parts))]
fn clauses(
    o: &mut Outliner,
    evaluated: bool,
    class: &Shared<Text>,
    list: &[Clause],
) -> Result<(), Memory>
    ensures { OnOk result (o.new ≡ behind o.old
        (outline_clauses evaluated class.now (clauses_of (map clause_of list.now)))) }
{
    for clause in list {
        one_clause(o, evaluated, class, clause)?;
    }
    Ok(())
}

#[cycle(expressions)]
#[tactic(auto, using(pt_tree::proofs::Folds::expressions, crate::proofs::outliner::Steps::parts))]
fn one_clause(
    o: &mut Outliner,
    evaluated: bool,
    class: &Shared<Text>,
    clause: &Clause,
) -> Result<(), Memory>
    ensures { OnOk result (o.new ≡ behind (behind o.old (evaluated_first
        (outline_exp evaluated class.now (clause_of clause.now).iterable ⨾ acts 2)
        (outline_target evaluated class.now (clause_of clause.now).target)))
        (outline_conditions evaluated class.now (clause_of clause.now).conditions)) }
{
    let mut first = o.aside(o.act());
    expression(&mut first, evaluated, class, &clause.iterable)?;
    first.count(2)?;
    o.number_from(first.act());
    target(o, evaluated, class, &clause.target)?;
    o.list(first)?;
    conditions(o, evaluated, class, clause.conditions.as_slice())
}

#[cycle(expressions)]
#[tactic(auto, using(pt_tree::proofs::Folds::expressions, crate::proofs::outliner::Steps::parts))]
pub fn place(
    o: &mut Outliner,
    evaluated: bool,
    class: &Shared<Text>,
    line: Line,
    node: &PlaceNode,
) -> Result<(), Memory>
    ensures { OnOk result (o.new ≡ behind o.old
        (outline_place evaluated class.now (place_node_of node.now line.0))) }
{
    match node {
        PlaceNode::Name(_) => o.count(1),
        PlaceNode::Attribute { object, .. } => {
            expression(o, evaluated, class, object.get())?;
            o.count(1)
        }
        PlaceNode::Item { object, index } => {
            expression(o, evaluated, class, object.get())?;
            expression(o, evaluated, class, index.get())?;
            o.count(1)
        }
    }
}

#[cycle(expressions)]
#[tactic(auto, using(pt_tree::proofs::Folds::expressions, crate::proofs::outliner::Steps::parts))]
pub fn target(
    o: &mut Outliner,
    evaluated: bool,
    class: &Shared<Text>,
    t: &Target,
) -> Result<(), Memory>
    ensures { OnOk result (o.new ≡ behind o.old
        (outline_target evaluated class.now (target_of t.now))) }
{
    match &t.node {
        TargetNode::Place(node) => place(o, evaluated, class, t.line, node),
        TargetNode::Tuple(parts) => {
            o.count(1)?;
            targets(o, evaluated, class, parts.as_slice())
        }
        TargetNode::List(parts) => {
            o.count(1)?;
            targets(o, evaluated, class, parts.as_slice())
        }
        TargetNode::Starred(part) => target(o, evaluated, class, part.get()),
    }
}

#[cycle(expressions)]
#[tactic(auto, using(pt_tree::proofs::Folds::expressions, crate::proofs::outliner::Steps::parts))]
pub fn targets(
    o: &mut Outliner,
    evaluated: bool,
    class: &Shared<Text>,
    parts: &[Target],
) -> Result<(), Memory>
    ensures { OnOk result (o.new ≡ behind o.old
        (outline_targets evaluated class.now (targets_of (map target_of parts.now)))) }
{
    for part in parts {
        target(o, evaluated, class, part)?;
    }
    Ok(())
}

/// The defaults of parameters.
#[cycle(expressions)]
#[tactic(auto, using(pt_tree::proofs::Folds::expressions, crate::proofs::outliner::Steps::parts))]
pub fn defaults(
    o: &mut Outliner,
    evaluated: bool,
    class: &Shared<Text>,
    parameters: &Parameters,
) -> Result<(), Memory>
    ensures { OnOk result (o.new ≡ behind o.old
        (outline_params evaluated class.now (parameters_of parameters.now))) }
{
    formals(o, evaluated, class, parameters.positional.as_slice())?;
    formals(o, evaluated, class, parameters.keyword_only.as_slice())
}

#[cycle(expressions)]
#[tactic(auto, using(pt_tree::proofs::Folds::expressions, crate::proofs::outliner::Steps::parts))]
fn formals(
    o: &mut Outliner,
    evaluated: bool,
    class: &Shared<Text>,
    names: &[Parameter],
) -> Result<(), Memory>
    ensures { OnOk result (o.new ≡ behind o.old
        (outline_formals evaluated class.now (chained no_formals (map formal_of names.now)))) }
{
    for p in names {
        boxed(o, evaluated, class, &p.default)?;
    }
    Ok(())
}
