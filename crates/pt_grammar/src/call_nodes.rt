//! What stands behind a primary, and the nodes that are made of it (Language Reference 6.3).

ghost use Rattle.std.specs.Prelude.{◌≡◌, ◌≢◌, ◌≤◌, ◌++◌, ◌∷◌, [], map, ℕ, List, IfOk, MatchOption};
ghost use Rattle.pt_wide.specs.Fold.{exp_of, opt_exp};
ghost use Rattle.pt_wide.specs.Syntax as S;
ghost use Rattle.pt_wide.specs.Measure.{depth_exp, depth_args, depth_opt};
ghost use Rattle.pt_grammar.specs.Nodes.{line_of, trailed_by, slice_line, args_of, order_of, order_behind, may_spread};
ghost use Rattle.pt_grammar.specs.Views.{args_in};
ghost use Rattle.pt_grammar.specs.ReadViews.{arguments_read};
ghost use Rattle.pt_grammar.specs.CallViews.{trailer_read, depth_trailer, argument_read, exp_in, order_read, argument_in, arguments_in, opt_read};

use crate::deep::{Arguments, Deep};
use crate::nodes::attribute;
use pt_base::{Boxed, Line, Memory, Seq, Text};
use pt_wide::{WideArgument, WideExpr, WideNode};
use std::alloc::Global;

/// What stands behind a primary: `.name`, `[index]` or `(arguments)`.
#[derive(Drop)]
pub enum Trailer {
    Name(Text),
    Index(Deep),
    Call(Arguments),
}

/// An argument of a call or of a class (Language Reference 6.3.4).
#[derive(Drop)]
pub enum Argument {
    Positional(Deep),
    /// `name=value`
    Named { line: Line, name: Text, value: Deep },
    /// `*value`
    Spread { line: Line, value: Deep },
    /// `**value`
    SpreadNamed { line: Line, value: Deep },
}

/// Which arguments may still follow (Language Reference 6.3.4).
#[derive(Clone, Copy, Debug, PartialEq, Eq)]
pub enum Order {
    Any,
    /// None that is positional.
    Named,
    /// None with one star either.
    SpreadNamed,
}

/// Arguments in their order, and which may still follow.
#[derive(Drop)]
pub struct Ordered {
    pub items: Seq<WideArgument>,
    pub depth: u32,
    pub order: Order,
    ghost exact: { depth ≡ depth_args (args_of (arguments_in items)) },
    ghost ordered: { order_read order ≡ order_of (arguments_in items) },
}

impl Order {
    /// Whether an argument with a star may follow.
    pub fn may_spread(self) -> bool
        ensures { result ≡ may_spread (order_read self) }
    {
        match self {
            Order::Any => true,
            Order::Named => true,
            Order::SpreadNamed => false,
        }
    }

    /// Which may follow behind this one.
    fn behind(self, argument: &Argument) -> Order
        ensures { order_read result ≡ order_behind (order_read self) (argument_read argument.now) }
    {
        match argument {
            Argument::Positional(_) => self,
            Argument::Spread { .. } => self,
            Argument::SpreadNamed { .. } => Order::SpreadNamed,
            Argument::Named { .. } => match self {
                Order::Any => Order::Named,
                Order::Named => Order::Named,
                Order::SpreadNamed => Order::SpreadNamed,
            },
        }
    }
}

impl Argument {
    fn depth(&self) -> u32
        ensures { result ≡ depth_exp (exp_in (argument_read self.now)) }
    {
        match self {
            Argument::Positional(value) => value.depth,
            Argument::Named { value, .. } => value.depth,
            Argument::Spread { value, .. } => value.depth,
            Argument::SpreadNamed { value, .. } => value.depth,
        }
    }

    fn into_node(self) -> WideArgument
        ensures { argument_in result ≡ argument_read self }
    {
        match self {
            Argument::Positional(value) => WideArgument::Positional(value.tree.into_inner()),
            Argument::Named { line, name, value } => WideArgument::Named {
                line,
                name,
                value: value.tree.into_inner(),
            },
            Argument::Spread { line, value } => WideArgument::Spread {
                line,
                value: value.tree.into_inner(),
            },
            Argument::SpreadNamed { line, value } => WideArgument::SpreadNamed {
                line,
                value: value.tree.into_inner(),
            },
        }
    }
}

impl Ordered {
    pub fn new(alloc: Global) -> Ordered
        ensures { result.items ≡ [] }
    {
        Ordered {
            items: Seq::new(alloc),
            depth: 0,
            order: Order::Any,
        }
    }

    /// The same with one more behind the last.
    pub fn with(self, next: Argument) -> Result<Ordered, Memory>
        ensures { IfOk result (λ s. arguments_in s.items ≡ arguments_in self.items ++ (argument_read next ∷ [])) }
    {
        let Ordered {
            mut items,
            depth,
            order,
        } = self;
        let depth = depth.max(next.depth());
        let order = order.behind(&next);
        items.push(next.into_node())?;
        Ok(Ordered {
            items,
            depth,
            order,
        })
    }

    /// All of them.
    pub fn finish(self) -> Arguments
        ensures { arguments_read result ≡ args_of (arguments_in self.items) }
    {
        let Ordered { items, depth, .. } = self;
        Arguments { items, depth }
    }
}

impl Deep {
    /// The name that it is alone, without parentheses, and its line.
    pub fn into_name(self) -> Option<(Line, Text)>
        ensures { MatchOption result
            ((l : ℕ) (x : List ℕ) → exp_of self.tree ≢ S.name l x)
            (λ n. exp_of self.tree ≡ S.name n.0.0 n.1) }
    {
        let tree = self.tree.into_inner();
        let line = tree.line;
        let node = tree.into_node();
        match node {
            WideNode::Name(name) => Some((line, name)),
            _ => None,
        }
    }
}

/// `object[index]`
#[tactic(auto, using(pt_wide::proofs::Folds::expressions))]
pub fn item(alloc: Global, object: Deep, index: Deep) -> Result<Deep, Memory>
    requires object { object.depth ≤ 500 }
    requires index { index.depth ≤ 500 }
    ensures { IfOk result (λ e. exp_of e.tree ≡ S.item (line_of (exp_of object.tree)) (exp_of object.tree) (exp_of index.tree)) }
{
    let line = object.line();
    let depth = object.depth.max(index.depth) + 1;
    let object = object.tree;
    let index = index.tree;
    let node = WideNode::Item { object, index };
    let tree = Boxed::new(alloc, WideExpr { line, node })?;
    Ok(Deep { tree, depth })
}

/// `callee(arguments)`
#[tactic(auto, using(pt_wide::proofs::Folds::expressions))]
pub fn call(alloc: Global, callee: Deep, arguments: Arguments) -> Result<Deep, Memory>
    requires callee { callee.depth ≤ 500 }
    requires arguments { arguments.depth ≤ 500 }
    ensures { IfOk result (λ e. exp_of e.tree ≡ S.call (line_of (exp_of callee.tree)) (exp_of callee.tree) (arguments_read arguments)) }
{
    let line = callee.line();
    let depth = callee.depth.max(arguments.depth) + 1;
    let node = WideNode::Call {
        callee: callee.tree,
        arguments: arguments.items,
    };
    let tree = Boxed::new(alloc, WideExpr { line, node })?;
    Ok(Deep { tree, depth })
}

/// A primary with what stands behind it.
pub fn trailed(alloc: Global, object: Deep, trailer: Trailer) -> Result<Deep, Memory>
    requires object { object.depth ≤ 500 }
    requires trailer { depth_trailer (trailer_read trailer) ≤ 500 }
    ensures { IfOk result (λ e. exp_of e.tree ≡ trailed_by (exp_of object.tree) (trailer_read trailer)) }
{
    match trailer {
        Trailer::Name(name) => attribute(alloc, object, name),
        Trailer::Index(index) => item(alloc, object, index),
        Trailer::Call(arguments) => call(alloc, object, arguments),
    }
}

fn depth_of(bound: &Option<Deep>) -> u32
    ensures { result ≡ depth_opt (opt_read bound.now) }
{
    match bound {
        Some(value) => value.depth,
        None => 0,
    }
}

fn tree_of(bound: Option<Deep>) -> Option<Boxed<WideExpr>>
    ensures { opt_exp result ≡ opt_read bound }
{
    match bound {
        Some(value) => Some(value.tree),
        None => None,
    }
}

/// The line on which a slice starts.
fn starts_at(start: &Option<Deep>, colon: Line) -> Line
    ensures { result.0 ≡ slice_line (opt_read start.now) colon.0 }
{
    match start {
        Some(value) => value.line(),
        None => colon,
    }
}

/// `start:stop:step`, with the line of its first colon.
#[tactic(auto, using(pt_wide::proofs::Folds::expressions))]
pub fn slice(
    alloc: Global,
    colon: Line,
    start: Option<Deep>,
    stop: Option<Deep>,
    step: Option<Deep>,
) -> Result<Deep, Memory>
    requires start { depth_opt (opt_read start) ≤ 500 }
    requires stop { depth_opt (opt_read stop) ≤ 500 }
    requires step { depth_opt (opt_read step) ≤ 500 }
    ensures { IfOk result (λ e. exp_of e.tree ≡ S.slice (slice_line (opt_read start) colon.0) (opt_read start) (opt_read stop) (opt_read step)) }
{
    let line = starts_at(&start, colon);
    let depth = depth_of(&start).max(depth_of(&stop).max(depth_of(&step))) + 1;
    let node = WideNode::Slice {
        start: tree_of(start),
        stop: tree_of(stop),
        step: tree_of(step),
    };
    let tree = Boxed::new(alloc, WideExpr { line, node })?;
    Ok(Deep { tree, depth })
}
