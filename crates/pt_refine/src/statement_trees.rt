//! The trees of the language that simple statements, and the parts of compound ones, are (Language
//! Reference 7, 8).

ghost use Rattle.std.specs.Prelude.{◌≡◌, Some, IfErr, IfOk, option_map};
ghost use Rattle.pt_refine_expr.specs.Blocks.{blocks_all, blocks_args, blocks_exp, blocks_opt};
ghost use Rattle.pt_refine_expr.specs.Narrow.{narrow_exp, narrow_opt, narrow_place};
ghost use Rattle.pt_refine_expr.specs.Narrowed.{Left, Makes, MakesExp, MakesTarget, tgts_of, wide_args, wide_exps};
ghost use Rattle.pt_refine_expr.specs.StatementBlocks.{blocks_decorators, blocks_items};
ghost use Rattle.pt_refine_expr.specs.StatementNarrow.{narrow_as, narrow_assigned, narrow_base, narrow_decorators, narrow_from, narrow_items};
ghost use Rattle.pt_refine.specs.StatementsNarrowed.{MakesBy, narrow_annotated, narrow_assignment, narrow_augmented, narrow_checked, narrow_leaf, narrow_simple};
ghost use Rattle.pt_tree.specs.Fold as T;
ghost use Rattle.pt_tree.specs.StatementFold as TS;
ghost use Rattle.pt_tree.specs.Syntax as P;
ghost use Rattle.pt_wide.specs.Fold as W;
ghost use Rattle.pt_wide.specs.StatementFold as WS;

use crate::kept::{no_generator, only_one, without_comma};
use pt_base::{Boxed, Dup, Seq};
use pt_refine_expr::{
    Narrower, Stars, Unnarrowed, boxed, copied_aliases, expression, target, targets,
};
use pt_tree::{Alias, Decorator, Expr, Place, PlaceNode, Stmt, StmtNode, Target, WithItem};
use pt_wide::{WideArgument, WideDecorator, WideExpr, WideItem, WideNode, WideStmt, WideStmtNode};

/// An expression that need not be there.
pub fn value(n: &mut Narrower, e: &Option<WideExpr>) -> Result<Option<Expr>, Unnarrowed>
    ensures { Makes T.opt_exp result (narrow_opt n.old (W.opt_exp e.now)) n.old (blocks_opt (W.opt_exp e.now)) n.new }
{
    match e {
        None => Ok(None),
        Some(e) => {
            let e = expression(n, e)?;
            Ok(Some(e))
        }
    }
}

/// An annotation, whose lambdas are no blocks.
fn annotation(n: &mut Narrower, e: &WideExpr) -> Result<Expr, Unnarrowed>
    ensures { Makes T.exp_of result (narrow_exp n.old (W.exp_of e.now)) n.old 0 n.new }
{
    let started = n.started();
    let e = expression(n, e)?;
    n.return_to(started);
    Ok(e)
}

/// The annotation of what a function returns.
fn returned(n: &mut Narrower, e: &Option<WideExpr>) -> Result<Option<Expr>, Unnarrowed>
    ensures { Makes T.opt_exp result (narrow_opt n.old (W.opt_exp e.now)) n.old 0 n.new }
{
    let started = n.started();
    let e = value(n, e)?;
    n.return_to(started);
    Ok(e)
}

/// A target in a box.
pub fn boxed_target(
    n: &mut Narrower,
    stars: Stars,
    e: &WideExpr,
) -> Result<Boxed<Target>, Unnarrowed>
    ensures { MakesTarget result n.old stars (W.exp_of e.now) n.new }
{
    let e = target(n, stars, e)?;
    Ok(Boxed::new(n.alloc(), e)?)
}

/// The annotation of what a function returns, in a box.
pub fn boxed_returned(
    n: &mut Narrower,
    e: &Option<WideExpr>,
) -> Result<Boxed<Option<Expr>>, Unnarrowed>
    ensures { Makes T.opt_exp result (narrow_opt n.old (W.opt_exp e.now)) n.old 0 n.new }
{
    let e = returned(n, e)?;
    Ok(Boxed::new(n.alloc(), e)?)
}

/// What stands in the place of a name, attribute or item alone.
fn place(n: &mut Narrower, e: &WideExpr) -> Result<Place, Unnarrowed>
    ensures { Makes T.place_of result (narrow_place n.old (W.exp_of e.now)) n.old (blocks_exp (W.exp_of e.now)) n.new }
{
    let line = e.line;
    match &e.node {
        WideNode::Name(name) => {
            let name = name.dup(n.alloc())?;
            Ok(Place {
                line,
                node: PlaceNode::Name(name),
            })
        }
        WideNode::Attribute { object, name } => {
            let object = boxed(n, object.get())?;
            let name = name.dup(n.alloc())?;
            Ok(Place {
                line,
                node: PlaceNode::Attribute { object, name },
            })
        }
        WideNode::Item { object, index } => {
            let object = boxed(n, object.get())?;
            let index = boxed(n, index.get())?;
            Ok(Place {
                line,
                node: PlaceNode::Item { object, index },
            })
        }
        _ => Err(Unnarrowed::LeftOut),
    }
}

/// The targets of an assignment, each behind its own `=`.
fn assigned(n: &mut Narrower, items: &[WideExpr]) -> Result<Seq<Target>, Unnarrowed>
    ensures { Makes tgts_of result (narrow_assigned n.old (wide_exps items.now)) n.old (blocks_all (wide_exps items.now)) n.new }
{
    let mut made = Seq::new(n.alloc());
    for item in items {
        let one = target(n, Stars::Inside, item)?;
        made.push(one)?;
    }
    Ok(made)
}

/// What stands behind an `as`.
fn bound(n: &mut Narrower, e: &Option<WideExpr>) -> Result<Option<Target>, Unnarrowed>
    ensures { Makes (option_map T.target_of) result (narrow_as n.old (W.opt_exp e.now)) n.old (blocks_opt (W.opt_exp e.now)) n.new }
{
    match e {
        None => Ok(None),
        Some(e) => {
            let bound = target(n, Stars::Never, e)?;
            Ok(Some(bound))
        }
    }
}

/// The names that are imported from an origin with no dots before it.
fn imported(n: &Narrower, dots: u32, names: &Option<Seq<Alias>>) -> Result<Seq<Alias>, Unnarrowed>
    ensures ok { IfOk result (λ xs. (l : _) (m : _) → narrow_from l dots m names.now ≡ Some (P.import_from l m xs)) }
    ensures err { IfErr result (λ e. (l : _) (m : _) → Left e (narrow_from l dots m names.now)) }
{
    if dots > 0 {
        return Err(Unnarrowed::LeftOut);
    }
    match names {
        None => Err(Unnarrowed::LeftOut),
        Some(names) => {
            let names = copied_aliases(n.alloc(), names.as_slice())?;
            Ok(names)
        }
    }
}

/// The base of a class, which has one at most, and no comma behind it.
pub fn base(
    n: &mut Narrower,
    values: &[WideArgument],
    trailing_comma: bool,
) -> Result<Option<Expr>, Unnarrowed>
    ensures { Makes T.opt_exp result (narrow_base n.old (wide_args values.now) trailing_comma) n.old (blocks_args (wide_args values.now)) n.new }
{
    match values.first() {
        None => Ok(None),
        Some(first) => {
            only_one(values)?;
            match first {
                WideArgument::Positional(value) => {
                    without_comma(trailing_comma)?;
                    no_generator(value)?;
                    let value = expression(n, value)?;
                    Ok(Some(value))
                }
                WideArgument::Named { .. } => Err(Unnarrowed::LeftOut),
                WideArgument::Spread { .. } => Err(Unnarrowed::LeftOut),
                WideArgument::SpreadNamed { .. } => Err(Unnarrowed::LeftOut),
            }
        }
    }
}

pub fn decorators(n: &mut Narrower, items: &[WideDecorator]) -> Result<Seq<Decorator>, Unnarrowed>
    ensures { Makes TS.decorators_of result (narrow_decorators n.old (WS.decorators_of items.now)) n.old (blocks_decorators (WS.decorators_of items.now)) n.new }
{
    let mut made = Seq::new(n.alloc());
    for item in items {
        let value = expression(n, &item.value)?;
        made.push(Decorator {
            line: item.line,
            value,
        })?;
    }
    Ok(made)
}

/// The items of a `with` (Language Reference 8.5).
pub fn entered(n: &mut Narrower, items: &[WideItem]) -> Result<Seq<WithItem>, Unnarrowed>
    ensures { Makes TS.items_of result (narrow_items n.old (WS.items_of items.now)) n.old (blocks_items (WS.items_of items.now)) n.new }
{
    let mut made = Seq::new(n.alloc());
    for item in items {
        let context = expression(n, &item.context)?;
        let target = bound(n, &item.target)?;
        made.push(WithItem {
            line: item.line,
            context,
            target,
        })?;
    }
    Ok(made)
}

/// `target += value` and the like, or what comes behind (Language Reference 7.2.1).
fn augmented(n: &mut Narrower, s: &WideStmt) -> Result<Stmt, Unnarrowed>
    ensures { MakesBy narrow_augmented result n.old (WS.stm_of s.now) n.new }
{
    let line = s.line;
    match &s.node {
        WideStmtNode::Augmented {
            target,
            operator,
            value,
        } => {
            let target = place(n, target)?;
            let value = expression(n, value)?;
            Ok(Stmt {
                line,
                node: StmtNode::Augmented {
                    target,
                    operator: *operator,
                    value,
                },
            })
        }
        _ => annotated(n, s),
    }
}

/// `target: annotation = value`, or what comes behind (Language Reference 7.2.2).
fn annotated(n: &mut Narrower, s: &WideStmt) -> Result<Stmt, Unnarrowed>
    ensures { MakesBy narrow_annotated result n.old (WS.stm_of s.now) n.new }
{
    let line = s.line;
    match &s.node {
        WideStmtNode::Annotated {
            target,
            annotation: kind,
            value: first,
        } => {
            let target = place(n, target)?;
            let annotation = annotation(n, kind)?;
            let value = value(n, first)?;
            Ok(Stmt {
                line,
                node: StmtNode::Annotated {
                    target,
                    annotation,
                    value,
                },
            })
        }
        _ => checked(n, s),
    }
}

/// `assert` or `raise` (Language Reference 7.3, 7.8).
fn checked(n: &mut Narrower, s: &WideStmt) -> Result<Stmt, Unnarrowed>
    ensures { MakesBy narrow_checked result n.old (WS.stm_of s.now) n.new }
{
    let line = s.line;
    match &s.node {
        WideStmtNode::Assert {
            test,
            message: told,
        } => {
            let test = expression(n, test)?;
            let message = value(n, told)?;
            Ok(Stmt {
                line,
                node: StmtNode::Assert { test, message },
            })
        }
        WideStmtNode::Raise { exception, cause } => {
            let exception = expression(n, exception)?;
            let cause = value(n, cause)?;
            Ok(Stmt {
                line,
                node: StmtNode::Raise { exception, cause },
            })
        }
        _ => simple(n, s),
    }
}

/// `del` or `return` (Language Reference 7.5, 7.6).
fn simple(n: &mut Narrower, s: &WideStmt) -> Result<Stmt, Unnarrowed>
    ensures { MakesBy narrow_simple result n.old (WS.stm_of s.now) n.new }
{
    let line = s.line;
    match &s.node {
        WideStmtNode::Del(items) => {
            let items = targets(n, Stars::Never, items.as_slice())?;
            Ok(Stmt {
                line,
                node: StmtNode::Del(items),
            })
        }
        WideStmtNode::Return(answer) => {
            let answer = value(n, answer)?;
            Ok(Stmt {
                line,
                node: StmtNode::Return(answer),
            })
        }
        _ => leaf(n, s),
    }
}

/// A statement with neither an expression nor a target (Language Reference 7).
fn leaf(n: &mut Narrower, s: &WideStmt) -> Result<Stmt, Unnarrowed>
    ensures { MakesBy narrow_leaf result n.old (WS.stm_of s.now) n.new }
{
    let line = s.line;
    match &s.node {
        WideStmtNode::Pass => Ok(Stmt {
            line,
            node: StmtNode::Pass,
        }),
        WideStmtNode::RaiseAgain => Ok(Stmt {
            line,
            node: StmtNode::RaiseAgain,
        }),
        WideStmtNode::Break => Ok(Stmt {
            line,
            node: StmtNode::Break,
        }),
        WideStmtNode::Continue => Ok(Stmt {
            line,
            node: StmtNode::Continue,
        }),
        WideStmtNode::Import(names) => {
            let names = copied_aliases(n.alloc(), names.as_slice())?;
            Ok(Stmt {
                line,
                node: StmtNode::Import(names),
            })
        }
        WideStmtNode::ImportFrom {
            dots,
            origin,
            names,
        } => {
            let names = imported(n, *dots, names)?;
            let origin = origin.dup(n.alloc())?;
            Ok(Stmt {
                line,
                node: StmtNode::ImportFrom { origin, names },
            })
        }
        WideStmtNode::Global(names) => {
            let names = names.dup(n.alloc())?;
            Ok(Stmt {
                line,
                node: StmtNode::Global(names),
            })
        }
        WideStmtNode::Nonlocal(names) => {
            let names = names.dup(n.alloc())?;
            Ok(Stmt {
                line,
                node: StmtNode::Nonlocal(names),
            })
        }
        _ => Err(Unnarrowed::LeftOut),
    }
}

/// `targets = value`, or an expression whose value is dropped (Language Reference 7.1, 7.2).
pub fn assignment(n: &mut Narrower, s: &WideStmt) -> Result<Stmt, Unnarrowed>
    ensures { MakesBy narrow_assignment result n.old (WS.stm_of s.now) n.new }
{
    let line = s.line;
    match &s.node {
        WideStmtNode::Assign {
            targets: items,
            value: last,
        } => {
            if items.is_empty() {
                let dropped = expression(n, last)?;
                return Ok(Stmt {
                    line,
                    node: StmtNode::Expr(dropped),
                });
            }
            let targets = assigned(n, items.as_slice())?;
            let value = expression(n, last)?;
            Ok(Stmt {
                line,
                node: StmtNode::Assign { targets, value },
            })
        }
        _ => augmented(n, s),
    }
}
