//! Where an expression runs other code as it is written.
ghost use Rattle.std.specs.Prelude.{◌≡◌, map, option_map};
ghost use Rattle.pt_tree.specs.Fold.{all_of, chained, entry_of, exp_of, link_of, opt_exp, piece_of};
ghost use Rattle.pt_tree.specs.Syntax.{no_entries, no_links, no_pieces};
ghost use Rattle.pt_eval.specs.Purity.{run_in, run_in_all, run_in_entries, run_in_links};
ghost use Rattle.pt_eval.specs.Purity.{is_pure, run_in_part, run_in_pieces};

use pt_base::{Boxed, Line};
use pt_tree::{Comparison, Entry, Expr, ExprNode, Piece};

/// The line of the first call, lambda, comprehension, generator expression or yield in an
/// expression.
#[cycle(purity)]
#[tactic(auto, using(pt_tree::proofs::Folds::expressions))]
pub fn run_in(e: &Expr) -> Option<Line>
    ensures { option_map (λ l. l.0) result ≡ run_in (exp_of e.now) }
{
    match &e.node {
        ExprNode::Constant(_) => None,
        ExprNode::Name(_) => None,
        ExprNode::Joined(pieces) => run_in_pieces(pieces.as_slice()),
        ExprNode::Tuple(items) => run_in_all(items.as_slice()),
        ExprNode::List(items) => run_in_all(items.as_slice()),
        ExprNode::Set(items) => run_in_all(items.as_slice()),
        ExprNode::Dict(entries) => run_in_entries(entries.as_slice()),
        ExprNode::Attribute { object, .. } => run_in(object.get()),
        ExprNode::Item { object, index } => run_in(object.get()).or(run_in(index.get())),
        ExprNode::Slice { start, stop, step } => {
            let behind = run_in_part(stop).or(run_in_part(step));
            run_in_part(start).or(behind)
        }
        ExprNode::Unary { operand, .. } => run_in(operand.get()),
        ExprNode::Not(operand) => run_in(operand.get()),
        ExprNode::Binary { left, right, .. } => run_in(left.get()).or(run_in(right.get())),
        ExprNode::Compare {
            left,
            right,
            rest,
            ..
        } => {
            let others = run_in_links(rest.as_slice());
            let behind = run_in(right.get()).or(others);
            run_in(left.get()).or(behind)
        }
        ExprNode::And { first, rest } => run_in(first.get()).or(run_in_all(rest.as_slice())),
        ExprNode::Or { first, rest } => run_in(first.get()).or(run_in_all(rest.as_slice())),
        ExprNode::Conditional {
            test,
            body,
            otherwise,
        } => {
            let otherwise = run_in(otherwise.get());
            let behind = run_in(test.get()).or(otherwise);
            run_in(body.get()).or(behind)
        }
        ExprNode::Call { .. } => Some(e.line),
        ExprNode::Lambda { .. } => Some(e.line),
        ExprNode::ListComprehension { .. } => Some(e.line),
        ExprNode::SetComprehension { .. } => Some(e.line),
        ExprNode::DictComprehension { .. } => Some(e.line),
        ExprNode::Generator { .. } => Some(e.line),
        ExprNode::Yield(_) => Some(e.line),
        ExprNode::YieldFrom(_) => Some(e.line),
    }
}

#[cycle(purity)]
#[tactic(auto, using(pt_tree::proofs::Folds::expressions))]
fn run_in_all(items: &[Expr]) -> Option<Line>
    ensures { option_map (λ l. l.0) result ≡ run_in_all (all_of (map exp_of items.now)) }
{
    for item in items {
        let found = run_in(item);
        if found.is_some() {
            return found;
        }
    }
    None
}

/// A part of a slice, which need not be written.
#[cycle(purity)]
#[tactic(auto, using(pt_tree::proofs::Folds::expressions))]
fn run_in_part(e: &Option<Boxed<Expr>>) -> Option<Line>
    ensures { option_map (λ l. l.0) result ≡ run_in_part (opt_exp e.now) }
{
    match e {
        Some(e) => run_in(e.get()),
        None => None,
    }
}

/// The parts of an f-string, or of a field's spec.
#[cycle(purity)]
#[tactic(auto, using(pt_tree::proofs::Folds::expressions))]
fn run_in_pieces(pieces: &[Piece]) -> Option<Line>
    ensures { option_map (λ l. l.0) result
        ≡ run_in_pieces (chained no_pieces (map piece_of pieces.now)) }
{
    for piece in pieces {
        let found = run_in_piece(piece);
        if found.is_some() {
            return found;
        }
    }
    None
}

#[cycle(purity)]
#[tactic(auto, using(pt_tree::proofs::Folds::expressions))]
fn run_in_piece(piece: &Piece) -> Option<Line>
    ensures { option_map (λ l. l.0) result ≡ run_in_pieces (piece_of piece.now no_pieces) }
{
    match piece {
        Piece::Literal { .. } => None,
        Piece::Field { value, spec, .. } => {
            run_in(value.get()).or(run_in_pieces(spec.as_slice()))
        }
    }
}

/// The entries of a dictionary's display.
#[cycle(purity)]
#[tactic(auto, using(pt_tree::proofs::Folds::expressions))]
fn run_in_entries(entries: &[Entry]) -> Option<Line>
    ensures { option_map (λ l. l.0) result
        ≡ run_in_entries (chained no_entries (map entry_of entries.now)) }
{
    for entry in entries {
        let key = run_in(&entry.key);
        let found = key.or(run_in(&entry.value));
        if found.is_some() {
            return found;
        }
    }
    None
}

/// The comparisons behind the first.
#[cycle(purity)]
#[tactic(auto, using(pt_tree::proofs::Folds::expressions))]
fn run_in_links(rest: &[Comparison]) -> Option<Line>
    ensures { option_map (λ l. l.0) result
        ≡ run_in_links (chained no_links (map link_of rest.now)) }
{
    for link in rest {
        let found = run_in(&link.right);
        if found.is_some() {
            return found;
        }
    }
    None
}

/// Whether no call, lambda, comprehension, generator expression or yield stands in an expression.
pub fn is_pure(e: &Expr) -> bool
    ensures { result ≡ is_pure (exp_of e.now) }
{
    run_in(e).is_none()
}
