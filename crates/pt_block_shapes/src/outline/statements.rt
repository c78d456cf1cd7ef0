//! The blocks and comprehensions in statements, which are evaluated (Language Reference 7, 8).

ghost use Rattle.std.specs.Prelude.{◌≡◌, [], map, true, option_map, IfOk, OnOk};
ghost use Rattle.sem_names.specs.Nexts.{nexts_script};
ghost use Rattle.sem_names.specs.Script.{shape_in};
ghost use Rattle.pt_block_shapes.specs.outliner.Outline.{acts, behind};
ghost use Rattle.pt_block_shapes.specs.outliner.Parts.{outline_all_deleted, outline_body, outline_branches, outline_decorators, outline_deleted, outline_handlers, outline_items, outline_opt, outline_opt_target, outline_script, outline_stm, outline_stms};
ghost use Rattle.pt_tree.specs.Blocks.{blocks_script, is_string};
ghost use Rattle.pt_tree.specs.Fold.{chained, exp_of, opt_exp, target_of, targets_of};
ghost use Rattle.pt_tree.specs.Sizes.{stored_by};
ghost use Rattle.pt_tree.specs.StatementFold.{branch_of, decorators_of, handler_of, items_of, script_of, stm_of, stms_of};
ghost use Rattle.pt_tree.specs.Syntax.{no_branches, no_handlers};
ghost use Rattle.pt_block_shapes.specs.outliner.Docstrings.{is_docstring as is_docstring_of};

use crate::outliner::{Outliner, defaults, expression, place, target, targets};
use pt_base::{Memory, Seq, Shared, Text};
use pt_tree::{
    Branch, Constant, Decorator, Expr, ExprNode, Handler, Script, Stmt, StmtNode, Target,
    TargetNode, WithItem,
};
use sem_names::BlockShape;
use std::alloc::Global;

#[tactic(auto, using(crate::proofs::outliner::Steps::parts))]
fn optional(o: &mut Outliner, class: &Shared<Text>, e: &Option<Expr>) -> Result<(), Memory>
    ensures { OnOk result (o.new ≡ behind o.old (outline_opt true class.now (opt_exp e.now))) }
{
    match e {
        None => Ok(()),
        Some(e) => expression(o, true, class, e),
    }
}

#[tactic(auto, using(crate::proofs::outliner::Steps::parts))]
fn optional_target(o: &mut Outliner, class: &Shared<Text>, t: &Option<Target>) -> Result<(), Memory>
    ensures { OnOk result (o.new ≡ behind o.old (outline_opt_target class.now (option_map target_of t.now))) }
{
    match t {
        None => Ok(()),
        Some(t) => target(o, true, class, t),
    }
}

/// The act of a handler's `as`.
#[tactic(auto, using(crate::proofs::outliner::Steps::parts))]
fn named(o: &mut Outliner, name: &Option<Text>) -> Result<(), Memory>
    ensures { OnOk result (o.new ≡ behind o.old (acts (stored_by name.now))) }
{
    match name {
        None => Ok(()),
        Some(_) => o.count(1),
    }
}

#[tactic(auto, using(crate::proofs::outliner::Steps::parts))]
fn decorators(o: &mut Outliner, class: &Shared<Text>, list: &[Decorator]) -> Result<(), Memory>
    ensures { OnOk result (o.new ≡ behind o.old (outline_decorators class.now (decorators_of list.now))) }
{
    for decorator in list {
        expression(o, true, class, &decorator.value)?;
    }
    Ok(())
}

/// The items of a `with`.
#[tactic(auto, using(crate::proofs::outliner::Steps::parts))]
fn items(o: &mut Outliner, class: &Shared<Text>, list: &[WithItem]) -> Result<(), Memory>
    ensures { OnOk result (o.new ≡ behind o.old (outline_items class.now (items_of list.now))) }
{
    for item in list {
        expression(o, true, class, &item.context)?;
        o.count(1)?;
        optional_target(o, class, &item.target)?;
    }
    Ok(())
}

/// A target that is deleted.
#[cycle(deleted)]
#[tactic(auto, using(pt_tree::proofs::Folds::expressions, crate::proofs::outliner::Steps::parts))]
fn deleted(o: &mut Outliner, class: &Shared<Text>, t: &Target) -> Result<(), Memory>
    ensures { OnOk result (o.new ≡ behind o.old (outline_deleted class.now (target_of t.now))) }
{
    match &t.node {
        TargetNode::Place(node) => place(o, true, class, t.line, node),
        TargetNode::Tuple(parts) => all_deleted(o, class, parts.as_slice()),
        TargetNode::List(parts) => all_deleted(o, class, parts.as_slice()),
        TargetNode::Starred(part) => deleted(o, class, part.get()),
    }
}

#[cycle(deleted)]
#[tactic(auto, using(pt_tree::proofs::Folds::expressions, crate::proofs::outliner::Steps::parts))]
fn all_deleted(o: &mut Outliner, class: &Shared<Text>, parts: &[Target]) -> Result<(), Memory>
    ensures { OnOk result (o.new ≡ behind o.old (outline_all_deleted class.now (targets_of (map target_of parts.now)))) }
{
    for part in parts {
        deleted(o, class, part)?;
    }
    Ok(())
}

#[cycle(statements)]
#[tactic(auto, using(pt_tree::proofs::StatementFolds::statements, crate::proofs::outliner::Steps::parts))]
fn statement(o: &mut Outliner, class: &Shared<Text>, s: &Stmt) -> Result<(), Memory>
    ensures { OnOk result (o.new ≡ behind o.old (outline_stm class.now (stm_of s.now))) }
{
    match &s.node {
        StmtNode::Expr(value) => {
            expression(o, true, class, value)?;
            o.count(1)
        }
        StmtNode::Assign {
            targets: parts,
            value,
        } => {
            let mut first = o.aside(o.act());
            expression(&mut first, true, class, value)?;
            o.number_from(first.act());
            targets(o, true, class, parts.as_slice())?;
            o.list(first)
        }
        StmtNode::Augmented { target, value, .. } => {
            place(o, true, class, target.line, &target.node)?;
            expression(o, true, class, value)?;
            o.count(2)
        }
        StmtNode::Annotated { target, value, .. } => match value {
            Some(value) => {
                let mut first = o.aside(o.act());
                expression(&mut first, true, class, value)?;
                o.number_from(first.act());
                place(o, true, class, target.line, &target.node)?;
                o.list(first)
            }
            None => {
                let act = o.act();
                place(o, false, class, target.line, &target.node)?;
                o.number_from(act);
                o.count(1)
            }
        },
        StmtNode::Assert { test, message } => {
            expression(o, true, class, test)?;
            o.count(1)?;
            optional(o, class, message)?;
            o.count(1)
        }
        StmtNode::Pass => o.count(1),
        StmtNode::Del(parts) => all_deleted(o, class, parts.as_slice()),
        StmtNode::Return(value) => {
            optional(o, class, value)?;
            o.count(1)
        }
        StmtNode::Raise { exception, cause } => {
            expression(o, true, class, exception)?;
            optional(o, class, cause)?;
            o.count(1)
        }
        StmtNode::RaiseAgain => o.count(1),
        StmtNode::Break => o.count(1),
        StmtNode::Continue => o.count(1),
        StmtNode::Import(names) => {
            o.count_items(names.len())?;
            o.count_items(names.len())
        }
        StmtNode::ImportFrom { names, .. } => {
            o.count(1)?;
            o.count_items(names.len())?;
            o.count_items(names.len())
        }
        StmtNode::Global(_) => Ok(()),
        StmtNode::Nonlocal(_) => Ok(()),
        StmtNode::If {
            branches: parts,
            otherwise,
        } => {
            branches(o, class, parts.as_slice())?;
            statements(o, class, otherwise.as_slice())
        }
        StmtNode::While {
            test,
            body,
            otherwise,
        } => {
            expression(o, true, class, test)?;
            o.count(1)?;
            statements(o, class, body.as_slice())?;
            statements(o, class, otherwise.as_slice())
        }
        StmtNode::For {
            target: bound,
            iterable,
            body,
            otherwise,
        } => {
            let mut first = o.aside(o.act());
            expression(&mut first, true, class, iterable)?;
            first.count(2)?;
            o.number_from(first.act());
            target(o, true, class, bound)?;
            o.list(first)?;
            statements(o, class, body.as_slice())?;
            statements(o, class, otherwise.as_slice())
        }
        StmtNode::Try {
            body,
            handlers: parts,
            otherwise,
            finally,
        } => {
            o.count(1)?;
            statements(o, class, body.as_slice())?;
            handlers(o, class, parts.as_slice())?;
            statements(o, class, otherwise.as_slice())?;
            statements(o, class, finally.as_slice())
        }
        StmtNode::With { items: list, body } => {
            items(o, class, list.as_slice())?;
            statements(o, class, body.as_slice())?;
            o.count_items(list.len())
        }
        StmtNode::Def {
            decorators: list,
            parameters,
            body,
            ..
        } => {
            decorators(o, class, list.as_slice())?;
            o.open_block(class, true)?;
            defaults(o, true, class, parameters)?;
            let act = o.act();
            o.number_from(0);
            function(o, class, body.as_slice())?;
            o.number_from(act);
            o.count_items(list.len())?;
            o.count(2)
        }
        StmtNode::Class {
            decorators: list,
            name,
            base,
            body,
            ..
        } => {
            decorators(o, class, list.as_slice())?;
            let inside = o.class(name.as_str())?;
            o.open_block(&inside, false)?;
            optional(o, class, base)?;
            let act = o.act();
            o.number_from(0);
            statements(o, &inside, body.as_slice())?;
            o.number_from(act);
            o.count_items(list.len())?;
            o.count(2)
        }
    }
}

#[cycle(statements)]
#[tactic(auto, using(pt_tree::proofs::StatementFolds::statements, crate::proofs::outliner::Steps::parts))]
fn statements(o: &mut Outliner, class: &Shared<Text>, list: &[Stmt]) -> Result<(), Memory>
    ensures { OnOk result (o.new ≡ behind o.old (outline_stms class.now (stms_of list.now))) }
{
    for s in list {
        statement(o, class, s)?;
    }
    Ok(())
}

/// The body of a function, whose documentation string doesn't run (Language Reference 8.7).
#[cycle(statements)]
#[tactic(auto, using(pt_tree::proofs::StatementFolds::statements, crate::proofs::outliner::Steps::parts))]
fn function(o: &mut Outliner, class: &Shared<Text>, body: &[Stmt]) -> Result<(), Memory>
    ensures { OnOk result (o.new ≡ behind o.old (outline_body class.now (stms_of body.now))) }
{
    match body.first() {
        None => Ok(()),
        Some(first) => {
            if is_docstring(first) {
                statements(o, class, &body[1..])
            } else {
                statements(o, class, body)
            }
        }
    }
}

#[cycle(statements)]
#[tactic(auto, using(pt_tree::proofs::StatementFolds::statements, crate::proofs::outliner::Steps::parts))]
fn branches(o: &mut Outliner, class: &Shared<Text>, list: &[Branch]) -> Result<(), Memory>
    ensures { OnOk result (o.new ≡ behind o.old (outline_branches class.now (chained no_branches (map branch_of list.now)))) }
{
    for branch in list {
        expression(o, true, class, &branch.test)?;
        o.count(1)?;
        statements(o, class, branch.body.as_slice())?;
    }
    Ok(())
}

#[cycle(statements)]
#[tactic(auto, using(pt_tree::proofs::StatementFolds::statements, crate::proofs::outliner::Steps::parts))]
fn handlers(o: &mut Outliner, class: &Shared<Text>, list: &[Handler]) -> Result<(), Memory>
    ensures { OnOk result (o.new ≡ behind o.old (outline_handlers class.now (chained no_handlers (map handler_of list.now)))) }
{
    for handler in list {
        optional(o, class, &handler.class)?;
        o.count(1)?;
        named(o, &handler.name)?;
        statements(o, class, handler.body.as_slice())?;
    }
    Ok(())
}

fn is_text(e: &Expr) -> bool
    ensures { result ≡ is_string (exp_of e.now) }
{
    let ExprNode::Constant(constant) = &e.node else {
        return false;
    };
    matches!(constant, Constant::Str(_))
}

fn is_docstring(s: &Stmt) -> bool
    ensures { result ≡ is_docstring_of (stm_of s.now) }
{
    let StmtNode::Expr(value) = &s.node else {
        return false;
    };
    is_text(value)
}

/// What has been met of a script, which begins with the module.
#[tactic(auto, using(crate::proofs::outliner::Steps::parts))]
fn walk(alloc: Global, script: &Script) -> Result<Outliner, Memory>
    ensures { IfOk result (λ o. o ≡ outline_script (script_of script.now)) }
{
    let mut o = Outliner::new(alloc, 0);
    let class = Shared::new(alloc, Text::new(alloc))?;
    o.open_block(&class, false)?;
    statements(&mut o, &class, script.body.as_slice())?;
    Ok(o)
}

/// What the blocks of a script are for names, in the order of their numbers; and for each region that is
/// a comprehension the number of its first Next, by region. More acts than can be numbered are
/// want of memory.
pub fn outline(
    alloc: Global,
    script: &Script,
) -> Result<(Seq<BlockShape>, Seq<Option<u32>>), Memory>
    ensures { IfOk result (λ o. (o.0 ≡ map (shape_in []) (blocks_script (script_of script.now)))
        × (o.1 ≡ nexts_script (script_of script.now))) }
{
    Ok(walk(alloc, script)?.into_parts())
}
