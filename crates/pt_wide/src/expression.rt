ghost use Rattle.std.specs.Prelude.{◌≡◌};

use pt_base::{BinOp, Boxed, CompareOp, Line, Seq, Text, UnOp};
use pt_tree::{Constant, Conversion, NamedParameter};

/// An expression of the wide grammar, and the line on which it starts (Language Reference 6).
#[cycle(wide)]
pub struct WideExpr {
    pub line: Line,
    pub node: WideNode,
}

impl Drop for WideExpr {
    #[cycle(wide)]
    fn drop(self) {
        let Self { line: _, node: _ } = self;
    }
}

impl WideExpr {
    /// What it is, without its line.
    pub fn into_node(self) -> WideNode
        ensures { result ≡ self.node }
    {
        let Self { line: _, node } = self;
        node
    }
}

/// What stands in a target's place is an expression too; so is `*item` in a display.
#[derive(Drop)]
#[cycle(wide)]
pub enum WideNode {
    Constant(Constant),
    /// A name (Language Reference 6.2.1).
    Name(Text),
    /// An f-string: its literal parts and its replacement fields (Language Reference 2.4.3).
    Joined(Seq<WidePiece>),
    /// `(inside)`; the inside of `()` is a tuple of nothing (Language Reference 6.2.3).
    Parenthesized(Boxed<WideExpr>),
    /// `*item` (Language Reference 6.15).
    Starred(Boxed<WideExpr>),
    /// `a, b` without its parentheses (Language Reference 6.15).
    Tuple(Seq<WideExpr>),
    /// `[a, b]` (Language Reference 6.2.5).
    List(Seq<WideExpr>),
    /// `{a, b}` (Language Reference 6.2.6).
    Set(Seq<WideExpr>),
    /// `{a: b}` (Language Reference 6.2.7).
    Dict(Seq<WideEntry>),
    /// `object.name` (Language Reference 6.3.1).
    Attribute {
        object: Boxed<WideExpr>,
        name: Text,
    },
    /// `object[index]` (Language Reference 6.3.2).
    Item {
        object: Boxed<WideExpr>,
        index: Boxed<WideExpr>,
    },
    /// `start:stop:step`, which stands as an index alone (Language Reference 6.3.3).
    Slice {
        start: Option<Boxed<WideExpr>>,
        stop: Option<Boxed<WideExpr>>,
        step: Option<Boxed<WideExpr>>,
    },
    /// `-operand` and the like (Language Reference 6.6).
    Unary {
        operator: UnOp,
        operand: Boxed<WideExpr>,
    },
    /// `not operand` (Language Reference 6.11).
    Not(Boxed<WideExpr>),
    /// `left + right` and the like (Language Reference 6.5, 6.7 to 6.9).
    Binary {
        left: Boxed<WideExpr>,
        operator: WideBinOp,
        right: Boxed<WideExpr>,
    },
    /// `left < right` and what follows in the chain (Language Reference 6.10).
    Compare {
        left: Boxed<WideExpr>,
        operator: CompareOp,
        right: Boxed<WideExpr>,
        rest: Seq<WideComparison>,
    },
    /// `first and ..` (Language Reference 6.11).
    And {
        first: Boxed<WideExpr>,
        rest: Seq<WideExpr>,
    },
    /// `first or ..` (Language Reference 6.11).
    Or {
        first: Boxed<WideExpr>,
        rest: Seq<WideExpr>,
    },
    /// `body if test else otherwise` (Language Reference 6.13).
    Conditional {
        test: Boxed<WideExpr>,
        body: Boxed<WideExpr>,
        otherwise: Boxed<WideExpr>,
    },
    /// `callee(arguments)` (Language Reference 6.3.4).
    Call {
        callee: Boxed<WideExpr>,
        arguments: Seq<WideArgument>,
    },
    /// `lambda parameters: body` (Language Reference 6.14).
    Lambda {
        parameters: WideParameters,
        body: Boxed<WideExpr>,
    },
    /// `item for ..` in brackets, braces or parentheses (Language Reference 6.2.4 to 6.2.8).
    Comprehension {
        form: Comprehension,
        item: Boxed<WideExpr>,
        first: Boxed<WideClause>,
        rest: Seq<WideClause>,
    },
    /// `{key: value for ..}` (Language Reference 6.2.4, 6.2.7).
    DictComprehension {
        entry: Boxed<WideEntry>,
        first: Boxed<WideClause>,
        rest: Seq<WideClause>,
    },
    /// `yield value` (Language Reference 6.2.9).
    Yield(Option<Boxed<WideExpr>>),
    /// `yield from iterable` (Language Reference 6.2.9).
    YieldFrom(Boxed<WideExpr>),
}

/// A binary operator (Language Reference 6.7).
#[derive(Clone, Copy, Debug, PartialEq, Eq)]
pub enum WideBinOp {
    Plain(BinOp),
    /// `@`
    MatMul,
}

/// What a comprehension of single items makes (Language Reference 6.2.4, 6.2.8).
#[derive(Clone, Copy, Debug, PartialEq, Eq)]
pub enum Comprehension {
    List,
    Set,
    /// A generator, whose parentheses are a node around it or those of a call.
    Generator,
}

/// A part of an f-string (Language Reference 2.4.3).
#[derive(Drop)]
#[cycle(wide)]
pub enum WidePiece {
    /// Text between replacement fields, and the line on which it starts.
    Literal {
        line: Line,
        text: Text,
    },
    /// `{value!r:spec}`; no parts of a spec mean that there is none.
    Field {
        line: Line,
        value: Boxed<WideExpr>,
        conversion: Option<Conversion>,
        spec: Seq<WidePiece>,
    },
}

/// An entry in the display of a dictionary (Language Reference 6.2.7).
#[derive(Drop)]
#[cycle(wide)]
pub enum WideEntry {
    /// `key: value`
    Pair { key: WideExpr, value: WideExpr },
    /// `**mapping`, and the line of its `**`.
    Spread { line: Line, mapping: WideExpr },
}

/// `operator right` in a chain of comparisons (Language Reference 6.10).
#[derive(Drop)]
#[cycle(wide)]
pub struct WideComparison {
    pub operator: CompareOp,
    pub right: WideExpr,
}

/// An argument of a call or of a class, and the line on which it starts (Language Reference 6.3.4).
#[derive(Drop)]
#[cycle(wide)]
pub enum WideArgument {
    Positional(WideExpr),
    /// `name=value`
    Named {
        line: Line,
        name: Text,
        value: WideExpr,
    },
    /// `*value`
    Spread {
        line: Line,
        value: WideExpr,
    },
    /// `**value`
    SpreadNamed {
        line: Line,
        value: WideExpr,
    },
}

/// `for target in iterable if ..` in a comprehension, and the line of its `for`
/// (Language Reference 6.2.4).
#[derive(Drop)]
#[cycle(wide)]
pub struct WideClause {
    pub line: Line,
    pub target: WideExpr,
    pub iterable: WideExpr,
    pub conditions: Seq<WideExpr>,
}

/// The parameters of a function (Language Reference 8.7).
#[derive(Drop)]
#[cycle(wide)]
pub struct WideParameters {
    /// What stands before `/`, if it is there.
    pub positional_only: Seq<WideParameter>,
    /// The line of `/`.
    pub slash: Option<Line>,
    /// What stands before `*`.
    pub positional: Seq<WideParameter>,
    /// `*name`
    pub star: Option<NamedParameter>,
    /// What stands behind `*`, which only a named argument reaches.
    pub keyword_only: Seq<WideParameter>,
    /// `**name`
    pub double_star: Option<NamedParameter>,
}

/// A parameter, and the line on which it stands (Language Reference 8.7).
#[derive(Drop)]
#[cycle(wide)]
pub struct WideParameter {
    pub line: Line,
    pub name: Text,
    pub annotation: Option<Boxed<WideExpr>>,
    pub default: Option<Boxed<WideExpr>>,
}
