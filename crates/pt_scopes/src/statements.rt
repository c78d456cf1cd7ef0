//! What statements mention (Language Reference 7, 8).

ghost use Rattle.std.specs.Prelude.{◌≡◌, ◌∷◌, OnOk, IfOk, map, option_map};
ghost use Rattle.pt_scopes.specs.Behind.{behind};
ghost use Rattle.pt_scopes.specs.Mentions.{places_branches, places_decorators, places_handlers, places_imports, places_items, places_named, places_names, places_opt, places_opt_target, places_place, places_script, places_stm, places_stms};
ghost use Rattle.pt_scopes.specs.Places.{loop_context};
ghost use Rattle.pt_tree.specs.Fold.{chained, opt_exp, place_of, target_of};
ghost use Rattle.pt_tree.specs.StatementFold.{branch_of, decorators_of, handler_of, items_of, script_of, stm_of, stms_of};
ghost use Rattle.pt_tree.specs.Syntax.{no_branches, no_handlers};

use crate::expressions::{expression, parameters, place, target, targets};
use crate::gatherer::Gatherer;
use crate::region::{Context, Role};
use pt_base::{Line, Memory, Text};
use pt_tree::{Alias, Branch, Decorator, Expr, Handler, Script, Stmt, StmtNode, Target, WithItem};
use std::alloc::Global;

fn in_loop(at: Context) -> Context
    ensures { result ≡ loop_context at }
{
    Context {
        in_loop: true,
        ..at
    }
}

#[tactic(auto, using(crate::proofs::Behind::parts))]
fn optional(g: &mut Gatherer, at: Context, class: &str, e: &Option<Expr>) -> Result<(), Memory>
    ensures { OnOk result (g.new ≡ behind g.old (places_opt at class.now (opt_exp e.now))) }
{
    match e {
        None => Ok(()),
        Some(e) => expression(g, at, class, e),
    }
}

#[tactic(auto, using(crate::proofs::Behind::parts))]
fn optional_target(
    g: &mut Gatherer,
    at: Context,
    class: &str,
    t: &Option<Target>,
) -> Result<(), Memory>
    ensures { OnOk result
        (g.new ≡ behind g.old (places_opt_target at class.now (option_map target_of t.now))) }
{
    match t {
        None => Ok(()),
        Some(t) => target(g, at, class, t),
    }
}

#[tactic(auto, using(crate::proofs::Behind::parts))]
fn decorators(g: &mut Gatherer, at: Context, class: &str, list: &[Decorator]) -> Result<(), Memory>
    ensures { OnOk result
        (g.new ≡ behind g.old (places_decorators at class.now (decorators_of list.now))) }
{
    for decorator in list {
        expression(g, at, class, &decorator.value)?;
    }
    Ok(())
}

#[tactic(auto, using(crate::proofs::Behind::parts))]
fn with_items(g: &mut Gatherer, at: Context, class: &str, items: &[WithItem]) -> Result<(), Memory>
    ensures { OnOk result (g.new ≡ behind g.old (places_items at class.now (items_of items.now))) }
{
    for item in items {
        expression(g, at, class, &item.context)?;
        optional_target(g, at, class, &item.target)?;
    }
    Ok(())
}

/// A handler's `as`.
#[tactic(auto, using(crate::proofs::Behind::parts))]
fn named(
    g: &mut Gatherer,
    at: Context,
    class: &str,
    line: Line,
    name: &Option<Text>,
) -> Result<(), Memory>
    ensures { OnOk result (g.new ≡ behind g.old (places_named at class.now line.0 name.now)) }
{
    match name {
        None => Ok(()),
        Some(name) => g.tell(Role::Bind, at, class, name.as_str(), line),
    }
}

#[tactic(auto, using(crate::proofs::Behind::parts))]
fn import(
    g: &mut Gatherer,
    at: Context,
    class: &str,
    line: Line,
    alias: &Alias,
) -> Result<(), Memory>
    ensures { OnOk result
        ((rest : _) → behind g.new (places_imports at class.now line.0 rest)
        ≡ behind g.old (places_imports at class.now line.0 (alias.now ∷ rest))) }
{
    match &alias.alias {
        None => g.tell(Role::Bind, at, class, alias.name.as_str(), line),
        Some(name) => g.tell(Role::Bind, at, class, name.as_str(), line),
    }
}

#[tactic(auto, using(crate::proofs::Behind::parts))]
fn imports(
    g: &mut Gatherer,
    at: Context,
    class: &str,
    line: Line,
    list: &[Alias],
) -> Result<(), Memory>
    ensures { OnOk result (g.new ≡ behind g.old (places_imports at class.now line.0 list.now)) }
{
    for alias in list {
        import(g, at, class, line, alias)?;
    }
    Ok(())
}

/// The names that are declared global or nonlocal.
#[tactic(auto, using(crate::proofs::Behind::parts))]
fn declared(
    g: &mut Gatherer,
    role: Role,
    at: Context,
    class: &str,
    line: Line,
    names: &[Text],
) -> Result<(), Memory>
    ensures { OnOk result (g.new ≡ behind g.old (places_names role at class.now line.0 names.now)) }
{
    for name in names {
        g.tell(role, at, class, name.as_str(), line)?;
    }
    Ok(())
}

#[cycle(statements)]
#[tactic(auto, using(pt_tree::proofs::StatementFolds::statements, crate::proofs::Behind::parts))]
fn statement(g: &mut Gatherer, at: Context, class: &str, s: &Stmt) -> Result<(), Memory>
    ensures { OnOk result (g.new ≡ behind g.old (places_stm at class.now (stm_of s.now))) }
{
    match &s.node {
        StmtNode::Expr(value) => expression(g, at, class, value),
        StmtNode::Assign {
            targets: parts,
            value,
        } => {
            targets(g, at, class, parts.as_slice())?;
            expression(g, at, class, value)
        }
        StmtNode::Augmented { target, value, .. } => {
            place(g, at, class, target.line, &target.node)?;
            expression(g, at, class, value)
        }
        StmtNode::Annotated { target, value, .. } => {
            place(g, at, class, target.line, &target.node)?;
            optional(g, at, class, value)
        }
        StmtNode::Assert { test, message } => {
            expression(g, at, class, test)?;
            optional(g, at, class, message)
        }
        StmtNode::Pass => Ok(()),
        StmtNode::Del(parts) => targets(g, at, class, parts.as_slice()),
        StmtNode::Return(value) => {
            g.gives(at, s.line)?;
            optional(g, at, class, value)
        }
        StmtNode::Raise { exception, cause } => {
            expression(g, at, class, exception)?;
            optional(g, at, class, cause)
        }
        StmtNode::RaiseAgain => Ok(()),
        StmtNode::Break => g.turns(at, s.line),
        StmtNode::Continue => g.turns(at, s.line),
        StmtNode::Import(names) => imports(g, at, class, s.line, names.as_slice()),
        StmtNode::ImportFrom { names, .. } => imports(g, at, class, s.line, names.as_slice()),
        StmtNode::Global(names) => declared(g, Role::Global, at, class, s.line, names.as_slice()),
        StmtNode::Nonlocal(names) => declared(
            g,
            Role::Nonlocal,
            at,
            class,
            s.line,
            names.as_slice(),
        ),
        StmtNode::If {
            branches: parts,
            otherwise,
        } => {
            branches(g, at, class, parts.as_slice())?;
            statements(g, at, class, otherwise.as_slice())
        }
        StmtNode::While {
            test,
            body,
            otherwise,
        } => {
            expression(g, at, class, test)?;
            statements(g, in_loop(at), class, body.as_slice())?;
            statements(g, at, class, otherwise.as_slice())
        }
        StmtNode::For {
            target: items,
            iterable,
            body,
            otherwise,
        } => {
            target(g, at, class, items)?;
            expression(g, at, class, iterable)?;
            statements(g, in_loop(at), class, body.as_slice())?;
            statements(g, at, class, otherwise.as_slice())
        }
        StmtNode::Try {
            body,
            handlers: parts,
            otherwise,
            finally,
        } => {
            statements(g, at, class, body.as_slice())?;
            handlers(g, at, class, parts.as_slice())?;
            statements(g, at, class, otherwise.as_slice())?;
            statements(g, at, class, finally.as_slice())
        }
        StmtNode::With { items, body } => {
            with_items(g, at, class, items.as_slice())?;
            statements(g, at, class, body.as_slice())
        }
        StmtNode::Def {
            decorators: list,
            line,
            name,
            parameters: names,
            body,
            ..
        } => {
            decorators(g, at, class, list.as_slice())?;
            g.tell(Role::Bind, at, class, name.as_str(), *line)?;
            let inside = g.open_function(at)?;
            parameters(g, at, inside, class, names)?;
            statements(g, inside, class, body.as_slice())
        }
        StmtNode::Class {
            decorators: list,
            line,
            name,
            base,
            body,
            ..
        } => {
            decorators(g, at, class, list.as_slice())?;
            g.tell(Role::Bind, at, class, name.as_str(), *line)?;
            let inside = g.open_class(at)?;
            optional(g, at, class, base)?;
            statements(g, inside, name.as_str(), body.as_slice())
        }
    }
}

#[cycle(statements)]
#[tactic(auto, using(pt_tree::proofs::StatementFolds::statements, crate::proofs::Behind::parts))]
fn statements(g: &mut Gatherer, at: Context, class: &str, list: &[Stmt]) -> Result<(), Memory>
    ensures { OnOk result (g.new ≡ behind g.old (places_stms at class.now (stms_of list.now))) }
{
    for s in list {
        statement(g, at, class, s)?;
    }
    Ok(())
}

#[cycle(statements)]
#[tactic(auto, using(pt_tree::proofs::StatementFolds::statements, crate::proofs::Behind::parts))]
fn branches(g: &mut Gatherer, at: Context, class: &str, list: &[Branch]) -> Result<(), Memory>
    ensures { OnOk result
        (g.new ≡ behind g.old
        (places_branches at class.now (chained no_branches (map branch_of list.now)))) }
{
    for branch in list {
        expression(g, at, class, &branch.test)?;
        statements(g, at, class, branch.body.as_slice())?;
    }
    Ok(())
}

#[cycle(statements)]
#[tactic(auto, using(pt_tree::proofs::StatementFolds::statements, crate::proofs::Behind::parts))]
fn handlers(g: &mut Gatherer, at: Context, class: &str, list: &[Handler]) -> Result<(), Memory>
    ensures { OnOk result
        (g.new ≡ behind g.old
        (places_handlers at class.now (chained no_handlers (map handler_of list.now)))) }
{
    for handler in list {
        optional(g, at, class, &handler.class)?;
        named(g, at, class, handler.line, &handler.name)?;
        statements(g, at, class, handler.body.as_slice())?;
    }
    Ok(())
}

/// What a script mentions.
#[tactic(auto, using(crate::proofs::Behind::parts))]
pub fn gathered(alloc: Global, script: &Script) -> Result<Gatherer, Memory>
    ensures { IfOk result (λ g. g ≡ places_script (script_of script.now)) }
{
    let mut g = Gatherer::new(alloc)?;
    let at = Context {
        region: 0,
        home: 0,
        may_give: false,
        in_loop: false,
    };
    statements(&mut g, at, "", script.body.as_slice())?;
    Ok(g)
}
