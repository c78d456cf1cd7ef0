use pt_base::{BinOp, BlockId, Boxed, CompareOp, Line, Seq, Text, UnOp};

/// An expression, and the line on which it starts (Language Reference 6).
#[cycle(expr)]
pub struct Expr {
    pub line: Line,
    pub node: ExprNode,
}

impl Drop for Expr {
    #[cycle(expr)]
    fn drop(self) {
        let Self { line: _, node: _ } = self;
    }
}

#[derive(Drop)]
#[cycle(expr)]
pub enum ExprNode {
    Constant(Constant),
    /// A name (Language Reference 6.2.1).
    Name(Text),
    /// An f-string: its literal parts and its replacement fields (Language Reference 2.4.3).
    Joined(Seq<Piece>),
    /// `a, b` (Language Reference 6.15).
    Tuple(Seq<Expr>),
    /// `[a, b]` (Language Reference 6.2.5).
    List(Seq<Expr>),
    /// `{a, b}` (Language Reference 6.2.6).
    Set(Seq<Expr>),
    /// `{a: b}` (Language Reference 6.2.7).
    Dict(Seq<Entry>),
    /// `object.name` (Language Reference 6.3.1).
    Attribute {
        object: Boxed<Expr>,
        name: Text,
    },
    /// `object[index]` (Language Reference 6.3.2).
    Item {
        object: Boxed<Expr>,
        index: Boxed<Expr>,
    },
    /// `start:stop:step`, which stands as an index alone (Language Reference 6.3.3).
    Slice {
        start: Option<Boxed<Expr>>,
        stop: Option<Boxed<Expr>>,
        step: Option<Boxed<Expr>>,
    },
    /// `-operand` and the like (Language Reference 6.6).
    Unary {
        operator: UnOp,
        operand: Boxed<Expr>,
    },
    /// `not operand` (Language Reference 6.11).
    Not(Boxed<Expr>),
    /// `left + right` and the like (Language Reference 6.5, 6.7 to 6.9).
    Binary {
        left: Boxed<Expr>,
        operator: BinOp,
        right: Boxed<Expr>,
    },
    /// `left < right` and what follows in the chain (Language Reference 6.10).
    Compare {
        left: Boxed<Expr>,
        operator: CompareOp,
        right: Boxed<Expr>,
        rest: Seq<Comparison>,
    },
    /// `first and ..` (Language Reference 6.11).
    And {
        first: Boxed<Expr>,
        rest: Seq<Expr>,
    },
    /// `first or ..` (Language Reference 6.11).
    Or {
        first: Boxed<Expr>,
        rest: Seq<Expr>,
    },
    /// `body if test else otherwise` (Language Reference 6.13).
    Conditional {
        test: Boxed<Expr>,
        body: Boxed<Expr>,
        otherwise: Boxed<Expr>,
    },
    /// `callee(arguments)` (Language Reference 6.3.4).
    Call {
        callee: Boxed<Expr>,
        arguments: Seq<Argument>,
    },
    /// `lambda parameters: body`, and the number of its block (Language Reference 6.14).
    Lambda {
        block: BlockId,
        parameters: Parameters,
        body: Boxed<Expr>,
    },
    /// `[item for ..]` (Language Reference 6.2.4, 6.2.5).
    ListComprehension {
        item: Boxed<Expr>,
        first: Boxed<Clause>,
        rest: Seq<Clause>,
    },
    /// `{item for ..}` (Language Reference 6.2.4, 6.2.6).
    SetComprehension {
        item: Boxed<Expr>,
        first: Boxed<Clause>,
        rest: Seq<Clause>,
    },
    /// `{key: value for ..}` (Language Reference 6.2.4, 6.2.7).
    DictComprehension {
        key: Boxed<Expr>,
        value: Boxed<Expr>,
        first: Boxed<Clause>,
        rest: Seq<Clause>,
    },
    /// `(item for ..)`, and the number of its block (Language Reference 6.2.8).
    Generator {
        block: BlockId,
        item: Boxed<Expr>,
        first: Boxed<Clause>,
        rest: Seq<Clause>,
    },
    /// `yield value` (Language Reference 6.2.9).
    Yield(Option<Boxed<Expr>>),
    /// `yield from iterable` (Language Reference 6.2.9).
    YieldFrom(Boxed<Expr>),
}

/// A constant (Language Reference 6.2.2, and 3.2 for `...`).
#[derive(Drop)]
pub enum Constant {
    None,
    Bool(bool),
    Ellipsis,
    /// An integer literal (Language Reference 2.4.5).
    Int(i128),
    /// The value of a string literal, or of several that stand together (Language Reference 2.4.1, 2.4.2).
    Str(Text),
}

/// A part of an f-string (Language Reference 2.4.3).
#[derive(Drop)]
#[cycle(expr)]
pub enum Piece {
    /// Text between replacement fields, and the line on which it starts.
    Literal {
        line: Line,
        text: Text,
    },
    /// `{value!r:spec}`; no parts of a spec mean that there is none.
    Field {
        line: Line,
        value: Boxed<Expr>,
        conversion: Option<Conversion>,
        spec: Seq<Piece>,
    },
}

/// The conversion of a replacement field (Language Reference 2.4.3).
#[derive(Clone, Copy, Debug, PartialEq, Eq)]
pub enum Conversion {
    /// `!s`
    Str,
    /// `!r`
    Repr,
}

/// `key: value` in the display of a dictionary (Language Reference 6.2.7).
#[derive(Drop)]
#[cycle(expr)]
pub struct Entry {
    pub key: Expr,
    pub value: Expr,
}

/// `operator right` in a chain of comparisons (Language Reference 6.10).
#[derive(Drop)]
#[cycle(expr)]
pub struct Comparison {
    pub operator: CompareOp,
    pub right: Expr,
}

/// An argument of a call (Language Reference 6.3.4).
#[derive(Drop)]
#[cycle(expr)]
pub enum Argument {
    Positional(Expr),
    /// `name=value`
    Named { name: Text, value: Expr },
    /// `*value`
    Spread(Expr),
    /// `**value`
    SpreadNamed(Expr),
}

/// `for target in iterable if ..` in a comprehension, and the line of its `for`
/// (Language Reference 6.2.4).
#[derive(Drop)]
#[cycle(expr)]
pub struct Clause {
    pub line: Line,
    pub target: Target,
    pub iterable: Expr,
    pub conditions: Seq<Expr>,
}

/// A target, and the line on which it starts (Language Reference 7.2).
#[derive(Drop)]
#[cycle(expr)]
pub struct Target {
    pub line: Line,
    pub node: TargetNode,
}

#[derive(Drop)]
#[cycle(expr)]
pub enum TargetNode {
    Place(PlaceNode),
    /// `a, b` or `(a, b)`
    Tuple(Seq<Target>),
    /// `[a, b]`
    List(Seq<Target>),
    /// `*target`, one of the targets of a tuple or list at most
    Starred(Boxed<Target>),
}

/// What a single value is bound to.
#[derive(Drop)]
#[cycle(expr)]
pub enum PlaceNode {
    Name(Text),
    /// `object.name`
    Attribute {
        object: Boxed<Expr>,
        name: Text,
    },
    /// `object[index]`
    Item {
        object: Boxed<Expr>,
        index: Boxed<Expr>,
    },
}

/// A target that is no tuple and no list, and the line on which it starts
/// (Language Reference 7.2.1, 7.2.2).
#[derive(Drop)]
pub struct Place {
    pub line: Line,
    pub node: PlaceNode,
}

/// The parameters of a function (Language Reference 8.7).
#[derive(Drop)]
#[cycle(expr)]
pub struct Parameters {
    /// What stands before `*`.
    pub positional: Seq<Parameter>,
    /// `*name`
    pub star: Option<NamedParameter>,
    /// What stands behind `*`, which only a named argument reaches.
    pub keyword_only: Seq<Parameter>,
    /// `**name`
    pub double_star: Option<NamedParameter>,
}

/// A parameter, and the line on which it stands (Language Reference 8.7).
#[derive(Drop)]
#[cycle(expr)]
pub struct Parameter {
    pub line: Line,
    pub name: Text,
    pub annotation: Option<Boxed<Expr>>,
    pub default: Option<Boxed<Expr>>,
}

/// The name behind `*` or `**`, and the line on which it stands.
#[derive(Drop)]
pub struct NamedParameter {
    pub line: Line,
    pub name: Text,
}
