//! Lambdas, and parameters as they are read one by one (Language Reference 6.14, 8.7).

ghost use Rattle.std.specs.Prelude.{◌≡◌, ◌≤◌, ◌↔◌, [], IsTrue, IfOk};
ghost use Rattle.pt_wide.specs.Fold.{exp_of, opt_exp};
ghost use Rattle.pt_wide.specs.Measure.{depth_opt, count_params, count_named};
ghost use Rattle.pt_wide.specs.Syntax as S;
ghost use Rattle.pt_grammar.specs.Nodes.{Stage as StageKind, defaulted as defaulted_stage, is_given as is_given_opt, no_parameters, gathered, formal as a_formal, slash as a_slash, bare_star as a_bare_star, star as a_star, double_star as a_double_star, params_of, allows_star, allows_double_star, allows_slash};
ghost use Rattle.pt_grammar.specs.Views.{formal_in};
ghost use Rattle.pt_grammar.specs.ReadViews.{gathered_read, stage_read};
ghost use Rattle.pt_grammar.specs.ParameterViews as V;
ghost use Rattle.pt_grammar.specs.ParameterViews.{given_read, formal_read, tree_read};

use crate::deep::{Deep, Parameters, Stage};
use pt_base::{Boxed, Line, Memory, Seq};
use pt_tree::NamedParameter;
use pt_wide::{WideExpr, WideNode, WideParameter, WideParameters};
use std::alloc::Global;

/// How deep the nodes of an expression stand that need not be there.
fn depth_of(value: &Option<Deep>) -> u32
    ensures { result ≡ depth_opt (given_read value.now) }
{
    match value {
        Some(given) => given.depth,
        None => 0,
    }
}

fn is_given(value: &Option<Deep>) -> bool
    ensures { result ≡ is_given_opt (given_read value.now) }
{
    match value {
        Some(_) => true,
        None => false,
    }
}

fn tree_of(value: Option<Deep>) -> Option<Boxed<WideExpr>>
    ensures { opt_exp result ≡ given_read value }
{
    match value {
        Some(given) => Some(given.tree),
        None => None,
    }
}

fn one_of(parameter: &Option<NamedParameter>) -> usize
    ensures { result ≡ count_named parameter.now }
{
    match parameter {
        Some(_) => 1,
        None => 0,
    }
}

/// Where a list of parameters stands behind one with a default or without.
fn stage_behind(stage: Stage, has_default: bool) -> Stage
    ensures { stage_read result ≡ V.after (stage_read stage) has_default }
{
    match stage {
        Stage::Plain if has_default => Stage::Defaulted,
        other => other,
    }
}

fn parameter_of(
    parameter: NamedParameter,
    annotation: Option<Deep>,
    default: Option<Deep>,
) -> WideParameter
    ensures { formal_in result ≡ formal_read parameter annotation default }
{
    WideParameter {
        line: parameter.line,
        name: parameter.name,
        annotation: tree_of(annotation),
        default: tree_of(default),
    }
}

fn no_tree(alloc: Global) -> WideParameters
    ensures { (s : StageKind) → tree_read s result ≡ V.nothing_read s }
{
    WideParameters {
        positional_only: Seq::new(alloc),
        slash: None,
        positional: Seq::new(alloc),
        star: None,
        keyword_only: Seq::new(alloc),
        double_star: None,
    }
}

/// One more before `*`.
fn and_positional(tree: WideParameters, one: WideParameter) -> Result<WideParameters, Memory>
    ensures { IfOk result (λ t. (s : StageKind) → tree_read s t ≡ V.and_positional (tree_read s tree) (formal_in one)) }
{
    let mut positional = tree.positional;
    positional.push(one)?;
    Ok(WideParameters {
        positional_only: tree.positional_only,
        slash: tree.slash,
        positional,
        star: tree.star,
        keyword_only: tree.keyword_only,
        double_star: tree.double_star,
    })
}

/// One more behind `*`.
fn and_keyword_only(tree: WideParameters, one: WideParameter) -> Result<WideParameters, Memory>
    ensures { IfOk result (λ t. (s : StageKind) → tree_read s t ≡ V.and_keyword_only (tree_read s tree) (formal_in one)) }
{
    let mut keyword_only = tree.keyword_only;
    keyword_only.push(one)?;
    Ok(WideParameters {
        positional_only: tree.positional_only,
        slash: tree.slash,
        positional: tree.positional,
        star: tree.star,
        keyword_only,
        double_star: tree.double_star,
    })
}

/// One more, where a list of parameters has come so far.
fn and_formal(
    tree: WideParameters,
    stage: Stage,
    one: WideParameter,
) -> Result<WideParameters, Memory>
    ensures { IfOk result (λ t. (s : StageKind) → tree_read s t ≡ V.and_formal (stage_read stage) (tree_read s tree) (formal_in one)) }
{
    match stage {
        Stage::KeywordOnly => and_keyword_only(tree, one),
        Stage::Plain => and_positional(tree, one),
        Stage::Defaulted => and_positional(tree, one),
        Stage::Over => and_positional(tree, one),
    }
}

fn and_slash(alloc: Global, tree: WideParameters, line: Line) -> WideParameters
    ensures { (s : StageKind) → tree_read s result ≡ V.and_slash (tree_read s tree) line.0 }
{
    WideParameters {
        positional_only: tree.positional,
        slash: Some(line),
        positional: Seq::new(alloc),
        star: tree.star,
        keyword_only: tree.keyword_only,
        double_star: tree.double_star,
    }
}

fn and_star(tree: WideParameters, parameter: NamedParameter) -> WideParameters
    ensures { (s : StageKind) → tree_read s result ≡ V.and_star (tree_read s tree) parameter }
{
    WideParameters {
        positional_only: tree.positional_only,
        slash: tree.slash,
        positional: tree.positional,
        star: Some(parameter),
        keyword_only: tree.keyword_only,
        double_star: tree.double_star,
    }
}

fn and_double_star(tree: WideParameters, parameter: NamedParameter) -> WideParameters
    ensures { (s : StageKind) → tree_read s result ≡ V.and_double_star (tree_read s tree) parameter }
{
    WideParameters {
        positional_only: tree.positional_only,
        slash: tree.slash,
        positional: tree.positional,
        star: tree.star,
        keyword_only: tree.keyword_only,
        double_star: Some(parameter),
    }
}

impl Parameters {
    /// No parameters.
    pub fn new(alloc: Global) -> Parameters
        ensures { gathered_read result ≡ no_parameters }
    {
        let tree = no_tree(alloc);
        Parameters {
            tree,
            stage: Stage::Plain,
            depth: 0,
        }
    }

    /// How many there are, with those of `*` and `**`.
    pub fn count(&self) -> usize
        requires { count_params (params_of (gathered_read self.now)) ≤ 4096 }
        ensures { result ≡ count_params (params_of (gathered_read self.now)) }
    {
        let tree = &self.tree;
        tree.positional_only.len()
            + tree.positional.len()
            + one_of(&tree.star)
            + tree.keyword_only.len()
            + one_of(&tree.double_star)
    }

    /// Whether one more may come.
    pub fn takes_more(&self) -> bool
        ensures { result ≡ allows_double_star (gathered_read self.now).stage }
    {
        match self.stage {
            Stage::Plain => true,
            Stage::Defaulted => true,
            Stage::KeywordOnly => true,
            Stage::Over => false,
        }
    }

    /// Whether `*` may come.
    pub fn takes_star(&self) -> bool
        ensures { result ≡ allows_star (gathered_read self.now).stage }
    {
        match self.stage {
            Stage::Plain => true,
            Stage::Defaulted => true,
            Stage::KeywordOnly => false,
            Stage::Over => false,
        }
    }

    /// Whether `/` may come.
    pub fn takes_slash(&self) -> bool
        ensures { result ≡ allows_slash (gathered_read self.now).stage (gathered_read self.now).slash (gathered_read self.now).positional }
    {
        if self.tree.slash.is_some() {
            return false;
        }
        if self.tree.positional.is_empty() {
            return false;
        }
        self.takes_star()
    }

    /// Whether the next one has a default.
    pub fn needs_default(&self) -> bool
        ensures { IsTrue result ↔ ((gathered_read self.now).stage ≡ defaulted_stage) }
    {
        match self.stage {
            Stage::Plain => false,
            Stage::Defaulted => true,
            Stage::KeywordOnly => false,
            Stage::Over => false,
        }
    }

    /// The same with one more that a named argument may reach.
    pub fn with_formal(
        self,
        parameter: NamedParameter,
        annotation: Option<Deep>,
        default: Option<Deep>,
    ) -> Result<Parameters, Memory>
        ensures { IfOk result (λ r. gathered_read r ≡ gathered (gathered_read self) (a_formal (formal_read parameter annotation default))) }
    {
        let depth = self
            .depth
            .max(depth_of(&annotation).max(depth_of(&default)));
        let stage = stage_behind(self.stage, is_given(&default));
        let one = parameter_of(parameter, annotation, default);
        let tree = and_formal(self.tree, self.stage, one)?;
        Ok(Parameters { tree, stage, depth })
    }

    /// The same where the first `/` stands behind the last, on this line.
    pub fn with_slash(self, alloc: Global, line: Line) -> Parameters
        requires { (gathered_read self).positional_only ≡ [] }
        ensures { gathered_read result ≡ gathered (gathered_read self) (a_slash line.0) }
    {
        let stage = self.stage;
        let depth = self.depth;
        let tree = and_slash(alloc, self.tree, line);
        Parameters { tree, stage, depth }
    }

    /// The same behind `*` alone.
    pub fn with_bare_star(self) -> Parameters
        ensures { gathered_read result ≡ gathered (gathered_read self) a_bare_star }
    {
        Parameters {
            tree: self.tree,
            stage: Stage::KeywordOnly,
            depth: self.depth,
        }
    }

    /// The same with `*parameter` behind the last.
    pub fn with_star(self, parameter: NamedParameter) -> Parameters
        ensures { gathered_read result ≡ gathered (gathered_read self) (a_star parameter) }
    {
        let depth = self.depth;
        let tree = and_star(self.tree, parameter);
        Parameters {
            tree,
            stage: Stage::KeywordOnly,
            depth,
        }
    }

    /// The same with `**parameter` behind the last.
    pub fn with_double_star(self, parameter: NamedParameter) -> Parameters
        ensures { gathered_read result ≡ gathered (gathered_read self) (a_double_star parameter) }
    {
        let depth = self.depth;
        let tree = and_double_star(self.tree, parameter);
        Parameters {
            tree,
            stage: Stage::Over,
            depth,
        }
    }
}

/// `lambda parameters: body`
#[tactic(auto, using(pt_wide::proofs::Folds::expressions, crate::proofs::Gathering::parameters_same))]
pub fn lambda(alloc: Global, line: Line, parameters: Parameters, body: Deep) -> Result<Deep, Memory>
    requires parameters { parameters.depth ≤ 500 }
    requires body { body.depth ≤ 500 }
    ensures { IfOk result (λ e. exp_of e.tree ≡ S.lambda line.0 (params_of (gathered_read parameters)) (exp_of body.tree)) }
{
    let depth = parameters.depth.max(body.depth) + 1;
    let node = WideNode::Lambda {
        parameters: parameters.tree,
        body: body.tree,
    };
    let tree = Boxed::new(alloc, WideExpr { line, node })?;
    Ok(Deep { tree, depth })
}
