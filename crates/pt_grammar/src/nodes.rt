//! Nodes of the tree from their parts.

ghost use Rattle.std.specs.Prelude.{◌≡◌, ◌≤◌, ◌<◌, ◌++◌, ◌∷◌, [], map, IfOk, OnOk};
ghost use Rattle.pt_wide.specs.Fold.{exp_of, all_of};
ghost use Rattle.pt_wide.specs.Syntax as S;
ghost use Rattle.pt_tree.specs.declared.expression.Constant.TheVariants as constant;
ghost use Rattle.pt_grammar.specs.Signs.{constant_of};
ghost use Rattle.pt_grammar.specs.Nodes.{line_of, compared, conjoined, disjoined};
ghost use Rattle.pt_grammar.specs.Views.{links_in};
ghost use Rattle.pt_grammar.specs.ReadViews.{link_read};

use crate::Singleton;
use crate::deep::{Deep, Linked, Links, Several};
use pt_base::{Boxed, CompareOp, Line, Memory, Seq, Text, UnOp};
use pt_tree::Constant;
use pt_wide::{WideBinOp, WideComparison, WideExpr, WideNode};
use std::alloc::Global;

impl Deep {
    /// The line on which it starts.
    #[tactic(auto, using(crate::proofs::LineLemmas::line_is))]
    pub fn line(&self) -> Line
        ensures { result.0 ≡ line_of (exp_of self.now.tree) }
    {
        self.tree.get().line
    }
}

impl Several {
    pub fn new(alloc: Global) -> Several
        ensures { result.items ≡ [] }
    {
        Several {
            items: Seq::new(alloc),
            depth: 0,
        }
    }

    /// The same with one more behind the last.
    pub fn with(self, next: Deep) -> Result<Several, Memory>
        ensures { IfOk result (λ s. map exp_of s.items ≡ map exp_of self.items ++ (exp_of next.tree ∷ [])) }
    {
        let Several { mut items, depth } = self;
        items.push(next.tree.into_inner())?;
        Ok(Several {
            items,
            depth: depth.max(next.depth),
        })
    }
}

impl Links {
    pub fn new(alloc: Global) -> Links
        ensures { result.items ≡ [] }
    {
        Links {
            items: Seq::new(alloc),
            depth: 0,
        }
    }

    /// The same with one more behind the last.
    pub fn with(self, next: Linked) -> Result<Links, Memory>
        ensures { IfOk result (λ s. links_in s.items ≡ links_in self.items ++ (link_read next ∷ [])) }
    {
        let Linked { operator, right } = next;
        let depth = self.depth.max(right.depth);
        let mut items = self.items;
        items.push(WideComparison {
            operator,
            right: right.tree.into_inner(),
        })?;
        Ok(Links { items, depth })
    }
}

#[tactic(auto, using(pt_wide::proofs::Folds::expressions))]
fn constant(alloc: Global, line: Line, constant: Constant) -> Result<Deep, Memory>
    ensures { IfOk result (λ e. exp_of e.tree ≡ S.constant line.0 constant) }
{
    let node = WideNode::Constant(constant);
    let tree = Boxed::new(alloc, WideExpr { line, node })?;
    Ok(Deep { tree, depth: 1 })
}

/// An integer.
pub fn int(alloc: Global, line: Line, value: i128) -> Result<Deep, Memory>
    ensures { IfOk result (λ e. exp_of e.tree ≡ S.constant line.0 (constant.Int value)) }
{
    constant(alloc, line, Constant::Int(value))
}

pub fn singleton(alloc: Global, line: Line, which: Singleton) -> Result<Deep, Memory>
    ensures { IfOk result (λ e. exp_of e.tree ≡ S.constant line.0 (constant_of which)) }
{
    match which {
        Singleton::None => constant(alloc, line, Constant::None),
        Singleton::True => constant(alloc, line, Constant::Bool(true)),
        Singleton::False => constant(alloc, line, Constant::Bool(false)),
        Singleton::Ellipsis => constant(alloc, line, Constant::Ellipsis),
    }
}

#[tactic(auto, using(pt_wide::proofs::Folds::expressions))]
pub fn name(alloc: Global, line: Line, text: &Text) -> Result<Deep, Memory>
    ensures { IfOk result (λ e. exp_of e.tree ≡ S.name line.0 text.now) }
{
    let node = WideNode::Name(Text::from_str(alloc, text.as_str())?);
    let tree = Boxed::new(alloc, WideExpr { line, node })?;
    Ok(Deep { tree, depth: 1 })
}

/// `(inside)`
#[tactic(auto, using(pt_wide::proofs::Folds::expressions))]
pub fn parenthesized(alloc: Global, line: Line, inside: Deep) -> Result<Deep, Memory>
    ensures { IfOk result (λ e. exp_of e.tree ≡ S.parenthesized line.0 (exp_of inside.tree)) }
{
    let depth = inside.depth;
    let node = WideNode::Parenthesized(inside.tree);
    let tree = Boxed::new(alloc, WideExpr { line, node })?;
    Ok(Deep { tree, depth })
}

#[tactic(auto, using(pt_wide::proofs::Folds::expressions))]
pub fn unary(alloc: Global, line: Line, operator: UnOp, operand: Deep) -> Result<Deep, Memory>
    requires { operand.depth ≤ 500 }
    ensures { IfOk result (λ e. exp_of e.tree ≡ S.unary line.0 operator (exp_of operand.tree)) }
{
    let depth = operand.depth + 1;
    let operand = operand.tree;
    let node = WideNode::Unary { operator, operand };
    let tree = Boxed::new(alloc, WideExpr { line, node })?;
    Ok(Deep { tree, depth })
}

/// `object.name`
#[tactic(auto, using(pt_wide::proofs::Folds::expressions))]
pub fn attribute(alloc: Global, object: Deep, name: Text) -> Result<Deep, Memory>
    requires { object.depth ≤ 500 }
    ensures { IfOk result (λ e. exp_of e.tree ≡ S.attribute (line_of (exp_of object.tree)) (exp_of object.tree) name) }
{
    let line = object.line();
    let depth = object.depth + 1;
    let object = object.tree;
    let node = WideNode::Attribute { object, name };
    let tree = Boxed::new(alloc, WideExpr { line, node })?;
    Ok(Deep { tree, depth })
}

/// `*item`
#[tactic(auto, using(pt_wide::proofs::Folds::expressions))]
pub fn starred(alloc: Global, line: Line, item: Deep) -> Result<Deep, Memory>
    ensures { IfOk result (λ e. exp_of e.tree ≡ S.starred line.0 (exp_of item.tree)) }
{
    let depth = item.depth;
    let node = WideNode::Starred(item.tree);
    let tree = Boxed::new(alloc, WideExpr { line, node })?;
    Ok(Deep { tree, depth })
}

/// `[a, b]`
#[tactic(auto, using(pt_wide::proofs::Folds::expressions))]
pub fn list(alloc: Global, line: Line, items: Several) -> Result<Deep, Memory>
    requires { items.depth ≤ 500 }
    ensures { IfOk result (λ e. exp_of e.tree ≡ S.list line.0 (all_of (map exp_of items.items))) }
{
    let depth = items.depth + 1;
    let node = WideNode::List(items.items);
    let tree = Boxed::new(alloc, WideExpr { line, node })?;
    Ok(Deep { tree, depth })
}

/// `not operand`
#[tactic(auto, using(pt_wide::proofs::Folds::expressions))]
pub fn negation(alloc: Global, line: Line, operand: Deep) -> Result<Deep, Memory>
    requires { operand.depth ≤ 500 }
    ensures { IfOk result (λ e. exp_of e.tree ≡ S.not_of line.0 (exp_of operand.tree)) }
{
    let depth = operand.depth + 1;
    let node = WideNode::Not(operand.tree);
    let tree = Boxed::new(alloc, WideExpr { line, node })?;
    Ok(Deep { tree, depth })
}

#[tactic(auto, using(pt_wide::proofs::Folds::expressions))]
pub fn binary(alloc: Global, left: Deep, operator: WideBinOp, right: Deep) -> Result<Deep, Memory>
    requires left { left.depth ≤ 500 }
    requires right { right.depth ≤ 500 }
    ensures { IfOk result (λ e. exp_of e.tree ≡ S.binary (line_of (exp_of left.tree)) operator (exp_of left.tree) (exp_of right.tree)) }
{
    let line = left.line();
    let depth = left.depth.max(right.depth) + 1;
    let left = left.tree;
    let right = right.tree;
    let node = WideNode::Binary {
        left,
        operator,
        right,
    };
    let tree = Boxed::new(alloc, WideExpr { line, node })?;
    Ok(Deep { tree, depth })
}

/// `body if test else otherwise`
#[tactic(auto, using(pt_wide::proofs::Folds::expressions))]
pub fn conditional(alloc: Global, body: Deep, test: Deep, otherwise: Deep) -> Result<Deep, Memory>
    requires body { body.depth ≤ 500 }
    requires test { test.depth ≤ 500 }
    requires otherwise { otherwise.depth ≤ 500 }
    ensures { IfOk result (λ e. exp_of e.tree ≡ S.conditional (line_of (exp_of body.tree)) (exp_of test.tree) (exp_of body.tree) (exp_of otherwise.tree)) }
{
    let line = body.line();
    let depth = body.depth.max(test.depth).max(otherwise.depth) + 1;
    let node = WideNode::Conditional {
        test: test.tree,
        body: body.tree,
        otherwise: otherwise.tree,
    };
    let tree = Boxed::new(alloc, WideExpr { line, node })?;
    Ok(Deep { tree, depth })
}

/// `first and ..`, and no node where nothing follows.
#[tactic(auto, using(pt_wide::proofs::Folds::expressions, crate::proofs::Depths::conjoined_is))]
pub fn conjunction(alloc: Global, first: Deep, more: Several) -> Result<Deep, Memory>
    requires first { first.depth ≤ 500 }
    requires more { more.depth ≤ 500 }
    ensures { IfOk result (λ e. exp_of e.tree ≡ conjoined (exp_of first.tree) (map exp_of more.items)) }
{
    if more.items.is_empty() {
        return Ok(first);
    }
    let line = first.line();
    let depth = first.depth.max(more.depth) + 1;
    let node = WideNode::And {
        first: first.tree,
        rest: more.items,
    };
    let tree = Boxed::new(alloc, WideExpr { line, node })?;
    Ok(Deep { tree, depth })
}

/// `first or ..`, and no node where nothing follows.
#[tactic(auto, using(pt_wide::proofs::Folds::expressions, crate::proofs::Depths::disjoined_is))]
pub fn disjunction(alloc: Global, first: Deep, more: Several) -> Result<Deep, Memory>
    requires first { first.depth ≤ 500 }
    requires more { more.depth ≤ 500 }
    ensures { IfOk result (λ e. exp_of e.tree ≡ disjoined (exp_of first.tree) (map exp_of more.items)) }
{
    if more.items.is_empty() {
        return Ok(first);
    }
    let line = first.line();
    let depth = first.depth.max(more.depth) + 1;
    let node = WideNode::Or {
        first: first.tree,
        rest: more.items,
    };
    let tree = Boxed::new(alloc, WideExpr { line, node })?;
    Ok(Deep { tree, depth })
}

/// `left < right ..`
#[tactic(auto, using(pt_wide::proofs::Folds::expressions, crate::proofs::Depths::links_same))]
pub fn comparison(alloc: Global, left: Deep, first: Linked, more: Links) -> Result<Deep, Memory>
    requires left { left.depth ≤ 500 }
    requires first { first.right.depth ≤ 500 }
    requires more { more.depth ≤ 500 }
    ensures { IfOk result (λ e. exp_of e.tree ≡ compared (exp_of left.tree) (link_read first ∷ links_in more.items)) }
{
    let line = left.line();
    let depth = left.depth.max(first.right.depth.max(more.depth)) + 1;
    let node = WideNode::Compare {
        left: left.tree,
        operator: first.operator,
        right: first.right.tree,
        rest: more.items,
    };
    let tree = Boxed::new(alloc, WideExpr { line, node })?;
    Ok(Deep { tree, depth })
}
