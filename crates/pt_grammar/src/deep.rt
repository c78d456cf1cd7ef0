//! Parts of a tree that are read, each with its depth.

ghost use Rattle.std.specs.Prelude.{◌≡◌, map};
ghost use Rattle.pt_wide.specs.Fold.{exp_of, all_of};
ghost use Rattle.pt_wide.specs.Fold.{parameters_of};
ghost use Rattle.pt_wide.specs.Measure.{depth_exp, depth_all, depth_args, depth_clauses, depth_params};
ghost use Rattle.pt_grammar.specs.Nodes.{clauses_of};
ghost use Rattle.pt_grammar.specs.Views.{links_in, depth_of_links, args_in, clauses_in};

use pt_base::{Boxed, CompareOp, Seq};
use pt_wide::{WideArgument, WideClause, WideComparison, WideExpr, WideParameters};

/// An expression, and how deep its nodes stand inside one another.
#[derive(Drop)]
pub struct Deep {
    pub tree: Boxed<WideExpr>,
    pub depth: u32,
    ghost exact: { depth ≡ depth_exp (exp_of tree) },
}

/// Expressions, and how deep the nodes of the deepest stand inside one another.
#[derive(Drop)]
pub struct Several {
    pub items: Seq<WideExpr>,
    pub depth: u32,
    ghost exact: { depth ≡ depth_all (all_of (map exp_of items)) },
}

/// Items with commas between them, and whether a comma stands behind the last.
#[derive(Drop)]
pub struct Listed {
    pub items: Several,
    pub comma: bool,
}

/// Comparisons behind a first value, and how deep the nodes of the deepest stand.
#[derive(Drop)]
pub struct Links {
    pub items: Seq<WideComparison>,
    pub depth: u32,
    ghost exact: { depth ≡ depth_of_links (links_in items) },
}

/// A comparison's operator and its right side.
#[derive(Drop)]
pub struct Linked {
    pub operator: CompareOp,
    pub right: Deep,
}

/// Arguments of a call or of a class, and how deep the nodes of the deepest stand.
#[derive(Drop)]
pub struct Arguments {
    pub items: Seq<WideArgument>,
    pub depth: u32,
    ghost exact: { depth ≡ depth_args (args_in items) },
}

/// Clauses of a comprehension, and how deep the nodes of the deepest stand.
#[derive(Drop)]
pub struct Clauses {
    pub items: Seq<WideClause>,
    pub depth: u32,
    ghost exact: { depth ≡ depth_clauses (clauses_of (clauses_in items)) },
}

/// How far a list of parameters has come (Language Reference 8.7).
#[derive(Clone, Copy, Debug, PartialEq, Eq)]
pub enum Stage {
    /// No parameter has a default yet.
    Plain,
    /// One has.
    Defaulted,
    /// Behind `*`.
    KeywordOnly,
    /// Behind `**`.
    Over,
}

/// Parameters, how far they have come, and how deep the nodes of the deepest stand.
#[derive(Drop)]
pub struct Parameters {
    pub tree: WideParameters,
    pub stage: Stage,
    pub depth: u32,
    ghost exact: { depth ≡ depth_params (parameters_of tree) },
}
